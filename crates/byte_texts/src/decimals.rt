ghost use Rattle.std.specs.Prelude.{◌≡◌, ◌≤◌, ◌<◌, ◌^◌, ◌+◌, ◌*◌, ◌++◌, None, Some, MatchOption, OnOk, OnErr, decimal};
ghost use Rattle.std.specs.List.{prefix_len};
ghost use Rattle.std.specs.Char.{is_ascii_digit};
ghost use Rattle.std.specs.Str.Parse.{AllDigits, digits_value};
ghost use Rattle.byte_texts.specs.Decimals.{decimal_at};

use itoa::Buffer;
use std::alloc::AllocError;

fn digits_len(bytes: &[u8]) -> usize
    ensures { result ≡ prefix_len is_ascii_digit bytes.now }
{
    bytes.iter().take_while(|b| b.is_ascii_digit()).count()
}

/// The number with one digit more, if it is below 2^64.
fn one_digit_more(value: u64, digit: u8) -> Option<u64>
    requires { digit < 10 }
    ensures { MatchOption result (2 ^ 64 ≤ value * 10 + digit) (λ n. (n ≡ value * 10 + digit) × (n < 2 ^ 64)) }
{
    value.checked_mul(10)?.checked_add(u64::from(digit))
}

fn digits_number(digits: &[u8]) -> Option<u64>
    requires { AllDigits 10 digits.now }
    ensures { MatchOption result (2 ^ 64 ≤ digits_value 10 digits.now) (λ n. (n ≡ digits_value 10 digits.now) × (n < 2 ^ 64)) }
{
    let mut value = 0;
    for digit in digits {
        value = one_digit_more(value, *digit - b'0')?;
    }
    Some(value)
}

/// The decimal number at the front of the bytes, and the bytes behind it. All leading digits belong to
/// it. There is none where no digit leads, where a needless 0 does, and from 2^64 on.
#[tactic(auto, unfolding(crate::specs::Decimals::decimal_at))]
pub fn read_decimal(bytes: &[u8]) -> Option<(u64, &[u8])>
    ensures { MatchOption result (decimal_at bytes.now ≡ None) (λ x. decimal_at bytes.now ≡ Some (x.0, x.1.now)) }
{
    let count = digits_len(bytes);
    let (digits, rest) = bytes.split_at(count);
    if digits.is_empty() || (digits.len() > 1 && digits[0] == b'0') {
        return None;
    }
    match digits_number(digits) {
        Some(value) => Some((value, rest)),
        None => None,
    }
}

/// Appends a number in decimal digits. Its one error is want of memory, and then nothing is appended.
pub fn put_decimal(n: u64, out: &mut Vec<u8>) -> Result<(), AllocError>
    ensures ok { OnOk result (out.new.items ≡ out.old.items ++ decimal n) }
    ensures err { OnErr result (out.new.items ≡ out.old.items) }
{
    let mut buffer = Buffer::new();
    out.extend_from_slice(buffer.format(n).as_bytes())
}

#[cfg(test)]
mod tests {
    use super::*;
    use std::test::Fail;

    #[test]
    fn numbers_are_read_and_printed(rt: HostRuntime) -> Result<(), Fail> {
        let cases: [(&[u8], Option<u64>, usize); 9] = [
            (b"0", Some(0), 0),
            (b"0 1", Some(0), 2),
            (b"00", None, 0),
            (b"012", None, 0),
            (b"", None, 0),
            (b"x1", None, 0),
            (b"12x", Some(12), 1),
            (b"18446744073709551615\n", Some(u64::MAX), 1),
            (b"18446744073709551616", None, 0),
        ];
        for (bytes, number, behind) in cases {
            let read = read_decimal(bytes);
            assert_eq!(rt; read.map(|x| x.0), number);
            assert_eq!(rt; read.map_or(0, |x| x.1.len()), behind);
        }
        let mut out = Vec::new(rt.alloc());
        for n in [0, 10, u64::MAX] {
            put_decimal(n, &mut out)?;
        }
        assert_eq!(rt; out.as_slice(), b"01018446744073709551615".as_slice());
        Ok(())
    }
}
