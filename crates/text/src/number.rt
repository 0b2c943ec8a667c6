// Decimal numbers, read from the bytes of a text.
ghost use Rattle.std.specs.Prelude.{◌≡◌, ◌+◌, ◌-◌, ◌*◌, ◌^◌, ◌<◌, min};
ghost use Rattle.text.specs.Decimals.{digit_of, decimal_of, signed_of};
ghost use Rattle.text.specs.Digits.{digit_in, limited_number};
ghost use Rattle.text.specs.Hexadecimals.{hex_value_of};

// The value of an ASCII digit of a base up to 36, in either case.
pub fn digit<const BASE: u8>(b: u8) -> Option<u8>
    ensures value { result ≡ digit_in BASE b }
    ensures ten { BASE ≡ 10 → result ≡ digit_of b }
    ensures sixteen { BASE ≡ 16 → result ≡ hex_value_of b }
{
    let value = match b {
        b'0'..=b'9' => b - b'0',
        b'A'..=b'Z' => b - b'A' + 10,
        b'a'..=b'z' => b - b'a' + 10,
        _ => return None,
    };
    (value < BASE).then_some(value)
}

// The number with one more digit written after it, at most the greatest `u64`.
fn followed<const BASE: u8>(number: u64, digit: u8) -> u64
    ensures { result ≡ min (number * BASE + digit) (2 ^ 64 - 1) }
{
    number
        .saturating_mul(u64::from(BASE))
        .saturating_add(u64::from(digit))
}

// The number that a text of digits alone writes, at most the greatest `u64`.
pub fn number<const BASE: u8>(text: &[u8]) -> Option<u64>
    requires { 0 < BASE }
    ensures { result ≡ limited_number BASE (digit_in BASE) text.now }
{
    if text.is_empty() {
        return None;
    }
    let mut number = 0;
    for b in text {
        number = followed::<BASE>(number, digit::<BASE>(*b)?);
    }
    Some(number)
}

// The number that a text of decimal digits alone writes, at most the greatest `u64`.
pub fn decimal(text: &[u8]) -> Option<u64>
    ensures { result ≡ decimal_of text.now }
{
    number::<10>(text)
}

// The number that a text of decimal digits, with or without one '-' in front, writes: the nearest `i64` to it.
pub fn signed(text: &[u8]) -> Option<i64>
    ensures { result ≡ signed_of text.now }
{
    match text {
        [b'-', digits @ ..] => Some(0i64.saturating_sub_unsigned(decimal(digits)?)),
        _ => Some(0i64.saturating_add_unsigned(decimal(text)?)),
    }
}

#[cfg(test)]
mod tests {
    use super::*;

    #[test]
    fn digits_and_decimals(rt: HostRuntime) {
        assert_eq!(rt; digit::<10>(b'7'), Some(7));
        assert_eq!(rt; digit::<10>(b'a'), None);
        assert_eq!(rt; decimal(b"007"), Some(7));
        assert_eq!(rt; decimal(b"18446744073709551615"), Some(u64::MAX));
        assert_eq!(rt; decimal(b"18446744073709551616"), Some(u64::MAX));
        assert_eq!(rt; decimal(b""), None);
        assert_eq!(rt; decimal(b"+5"), None);
        assert_eq!(rt; decimal(b"5 "), None);
    }

    #[test]
    fn signs(rt: HostRuntime) {
        assert_eq!(rt; signed(b"-0"), Some(0));
        assert_eq!(rt; signed(b"-12"), Some(-12));
        assert_eq!(rt; signed(b"9223372036854775808"), Some(i64::MAX));
        assert_eq!(rt; signed(b"-9223372036854775809"), Some(i64::MIN));
        assert_eq!(rt; signed(b"-"), None);
        assert_eq!(rt; signed(b"--1"), None);
    }
}
