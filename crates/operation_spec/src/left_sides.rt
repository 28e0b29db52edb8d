//! Left sides of equations, as their words say them.

ghost use Rattle.std.specs.Prelude.{◌≡◌, ◌<◌, ◌≤◌, length, IfSome};
ghost use Rattle.std.specs.Option.{option_map};
ghost use Rattle.operation_spec.specs.Equations.{left_at, left_of_products, one_product, product_at, two_products};
ghost use Rattle.operation_spec.specs.MarkedWords.{front_seen, left_front_seen, marked_word, marked_words, signed_at};
ghost use Rattle.operation_spec.specs.OperationFaults.{names_of};

use crate::equation::{LeftSide, Product};
use crate::marked_words::MarkedWord;
use crate::operation::Operand;

/// `F * G`, and what follows.
#[derive(Clone, Copy, Debug)]
pub struct ProductFront<'a, 'w> {
    pub first: MarkedWord<'w>,
    pub second: MarkedWord<'w>,
    pub rest: &'a [MarkedWord<'w>],
}

/// A left side, and what follows.
#[derive(Clone, Copy, Debug)]
pub struct LeftSideFront<'a, 'w> {
    pub left: LeftSide,
    pub rest: &'a [MarkedWord<'w>],
}

/// `F * G` at the front of the words.
pub fn product_at<'a, 'w>(words: &'a [MarkedWord<'w>]) -> Option<ProductFront<'a, 'w>>
    ensures product { option_map (front_seen) result ≡ product_at (marked_words words.now) }
    ensures shorter { IfSome result (λ p. length p.rest.now < length words.now) }
{
    match words {
        [first, times, second, rest @ ..] => {
            if first.is_factor() && times.is_plain(b"*") && second.is_factor() {
                Some(ProductFront {
                    first: *first,
                    second: *second,
                    rest,
                })
            } else {
                None
            }
        }
        _ => None,
    }
}

/// `+ F * G` or `- F * G` at the front of the words.
pub fn signed_at(work: &Operand, knowns: &[Operand], words: &[MarkedWord<'_>]) -> Option<Product>
    requires { length knowns.now ≤ 6 }
    ensures product { result ≡ signed_at (names_of work.now knowns.now) (marked_words words.now) }
    ensures four { IfSome result (λ _. 4 ≤ length words.now) }
{
    match words {
        [sign, first, times, second, ..] => {
            if sign.is_plus_or_minus()
                && first.is_factor()
                && times.is_plain(b"*")
                && second.is_factor()
            {
                let minus = sign.is_plain(b"-");
                Some(Product {
                    minus,
                    first: first.side(work, knowns),
                    second: second.side(work, knowns),
                })
            } else {
                None
            }
        }
        _ => None,
    }
}

/// `T * X`, or `X * T`.
fn one_product<'a, 'w>(
    work: &Operand,
    knowns: &[Operand],
    p: ProductFront<'a, 'w>,
) -> Option<LeftSideFront<'a, 'w>>
    requires { length knowns.now ≤ 6 }
    ensures left { option_map (left_front_seen) result ≡ one_product (names_of work.now knowns.now)
        (front_seen p.entry) }
{
    let left = if p.second.is_plain(b"X") {
        LeftSide::OnLeft {
            t: p.first.side(work, knowns),
        }
    } else if p.first.is_plain(b"X") {
        LeftSide::OnRight {
            t: p.second.side(work, knowns),
        }
    } else {
        return None;
    };
    Some(LeftSideFront { left, rest: p.rest })
}

/// `T * X + X * U`, or with `-`, where the sign stands behind the first product and `words` behind the sign.
fn two_products<'a, 'w>(
    work: &Operand,
    knowns: &[Operand],
    p: ProductFront<'a, 'w>,
    sign: MarkedWord<'w>,
    words: &'a [MarkedWord<'w>],
) -> Option<LeftSideFront<'a, 'w>>
    requires { length knowns.now ≤ 6 }
    ensures left { option_map (left_front_seen) result
        ≡ two_products (names_of work.now knowns.now) (front_seen p.entry) (marked_word sign.entry)
        (product_at (marked_words words.now)) }
{
    match product_at(words) {
        Some(q) => {
            if p.second.is_plain(b"X") && q.first.is_plain(b"X") {
                Some(LeftSideFront {
                    left: LeftSide::OnBoth {
                        t: p.first.side(work, knowns),
                        u: q.second.side(work, knowns),
                        minus: sign.is_plain(b"-"),
                    },
                    rest: q.rest,
                })
            } else {
                None
            }
        }
        None => None,
    }
}

/// A left side that begins with a product.
fn left_of_products<'a, 'w>(
    work: &Operand,
    knowns: &[Operand],
    words: &'a [MarkedWord<'w>],
) -> Option<LeftSideFront<'a, 'w>>
    requires { length knowns.now ≤ 6 }
    ensures left { option_map (left_front_seen) result ≡ left_of_products
        (names_of work.now knowns.now) (product_at (marked_words words.now)) }
{
    match product_at(words) {
        Some(p) => match p.rest {
            [sign, behind @ ..] => {
                if sign.is_plus_or_minus() {
                    two_products(work, knowns, p, *sign, behind)
                } else {
                    one_product(work, knowns, p)
                }
            }
            [] => one_product(work, knowns, p),
        },
        None => None,
    }
}

/// The left side at the front of the words.
#[tactic(auto, using(crate::proofs::EquationReading::no_left_side))]
pub fn left_at<'a, 'w>(
    work: &Operand,
    knowns: &[Operand],
    words: &'a [MarkedWord<'w>],
) -> Option<LeftSideFront<'a, 'w>>
    requires { length knowns.now ≤ 6 }
    ensures left { option_map (left_front_seen) result ≡ left_at (names_of work.now knowns.now)
        (marked_words words.now) }
{
    match words {
        [a, b, rest @ ..] => {
            if a.is_plain(b"lu") && b.is_plain(b"X") {
                Some(LeftSideFront {
                    left: LeftSide::LuFactors,
                    rest,
                })
            } else if a.is_plain(b"ldl") && b.is_plain(b"X") {
                Some(LeftSideFront {
                    left: LeftSide::LdlFactors,
                    rest,
                })
            } else if a.is_plain(b"X") && b.is_plain(b"=") {
                Some(LeftSideFront {
                    left: LeftSide::Solution,
                    rest: &words[1..],
                })
            } else {
                left_of_products(work, knowns, words)
            }
        }
        _ => None,
    }
}
