//! The equation of an operation as text.

ghost use Rattle.std.specs.Prelude.{◌≡◌, [], ◌∷◌, ◌++◌, map, codes, OnOk};
ghost use Rattle.std.specs.List.{flat_map};
ghost use Rattle.operation_spec.specs.OperationLines.{equation_words, factor_words, left_words, nth_name, sign_word, term_words};
ghost use Rattle.operation_spec.specs.WordTexts.{word_text, words_text};

use operation_spec::{Factor, Form, Operand, Operation, Term, put_word};
use std::alloc::AllocError;

/// The name of a known operand.
fn known_name(knowns: &[Operand], k: u32) -> &[u8]
    ensures { result.now ≡ nth_name (map (λ o. o.name) knowns.now) k }
{
    match knowns.get(k as usize) {
        Some(known) => known.name.as_slice(),
        None => &[],
    }
}

fn put_sign(minus: bool, out: &mut Vec<u8>) -> Result<(), AllocError>
    ensures { OnOk result (out.new.items ≡ out.old.items ++ word_text (sign_word minus)) }
{
    if minus {
        Ok(put_word(b"-", out)?)
    } else {
        Ok(put_word(b"+", out)?)
    }
}

/// Appends a factor: its operand's name, with `'` right behind it where it is transposed.
fn put_factor(knowns: &[Operand], f: Factor, out: &mut Vec<u8>) -> Result<(), AllocError>
    ensures { OnOk result (out.new.items ≡ out.old.items ++ words_text
        (factor_words (map (λ o. o.name) knowns.now) f)) }
{
    put_word(known_name(knowns, f.known), out)?;
    if f.primed {
        out.push(b'\'')?;
    }
    Ok(())
}

fn put_term(knowns: &[Operand], term: Term, out: &mut Vec<u8>) -> Result<(), AllocError>
    ensures { OnOk result (out.new.items ≡ out.old.items ++ words_text
        (term_words (map (λ o. o.name) knowns.now) term)) }
{
    put_sign(term.minus, out)?;
    put_factor(knowns, term.first, out)?;
    put_word(b"*", out)?;
    put_factor(knowns, term.second, out)?;
    Ok(())
}

fn put_terms(knowns: &[Operand], terms: &[Term], out: &mut Vec<u8>) -> Result<(), AllocError>
    ensures { OnOk result (out.new.items ≡ out.old.items ++ words_text
        (flat_map (term_words (map (λ o. o.name) knowns.now)) terms.now)) }
{
    for term in terms {
        put_term(knowns, *term, out)?;
    }
    Ok(())
}

/// Appends `T * X`.
fn put_left_product(knowns: &[Operand], t: Factor, out: &mut Vec<u8>) -> Result<(), AllocError>
    ensures { OnOk result (out.new.items ≡ out.old.items ++ words_text
        (factor_words (map (λ o. o.name) knowns.now) t ++ codes "*" ∷ codes "X" ∷ [])) }
{
    put_factor(knowns, t, out)?;
    put_word(b"*", out)?;
    put_word(b"X", out)?;
    Ok(())
}

/// Appends `X * T`.
fn put_right_product(knowns: &[Operand], t: Factor, out: &mut Vec<u8>) -> Result<(), AllocError>
    ensures { OnOk result (out.new.items ≡ out.old.items ++ words_text
        (codes "X" ∷ codes "*" ∷ factor_words (map (λ o. o.name) knowns.now) t)) }
{
    put_word(b"X", out)?;
    put_word(b"*", out)?;
    put_factor(knowns, t, out)?;
    Ok(())
}

/// Appends `lu X` or `ldl X`.
fn put_factors(word: &[u8], out: &mut Vec<u8>) -> Result<(), AllocError>
    ensures { OnOk result (out.new.items ≡ out.old.items ++ words_text
        (word.now ∷ codes "X" ∷ [])) }
{
    put_word(word, out)?;
    put_word(b"X", out)?;
    Ok(())
}

/// Appends the left side of an equation.
fn put_left(knowns: &[Operand], form: Form, out: &mut Vec<u8>) -> Result<(), AllocError>
    ensures { OnOk result (out.new.items ≡ out.old.items ++ words_text
        (left_words (map (λ o. o.name) knowns.now) form)) }
{
    match form {
        Form::Assign => Ok(put_word(b"X", out)?),
        Form::Left { t } => Ok(put_left_product(knowns, t, out)?),
        Form::Right { t } => Ok(put_right_product(knowns, t, out)?),
        Form::Sylvester { t, u, minus } => {
            put_left_product(knowns, t, out)?;
            put_sign(minus, out)?;
            Ok(put_right_product(knowns, u, out)?)
        }
        Form::Lu => Ok(put_factors(b"lu", out)?),
        Form::Ldl => Ok(put_factors(b"ldl", out)?),
    }
}

/// Appends the equation of an operation, each word behind a space but for `'`.
pub fn put_equation(op: &Operation, out: &mut Vec<u8>) -> Result<(), AllocError>
    ensures { OnOk result (out.new.items ≡ out.old.items ++ words_text (equation_words op.now)) }
{
    let knowns = op.knowns.as_slice();
    put_left(knowns, op.form, out)?;
    put_word(b"=", out)?;
    put_word(op.work.name.as_slice(), out)?;
    put_terms(knowns, op.terms.as_slice(), out)?;
    Ok(())
}
