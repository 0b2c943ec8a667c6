// Hexadecimal digits and numbers, read and written.
ghost use Rattle.std.specs.Prelude.{◌≡◌, ℕ, [], ◌∷◌, ◌++◌, take, is_ok, if◌then◌else◌, string_bytes, OnOk};
ghost use Rattle.text.specs.Hexadecimals.{hex_digit_of, hexed, hex_number_of};

use crate::number::number;
use std::alloc::AllocError;

// The lower case digit of the low four bits.
pub fn hex_digit(x: u8) -> u8
    ensures { result ≡ hex_digit_of x }
{
    match x % 16 {
        low @ 0..=9 => b'0' + low,
        low => b'a' + (low - 10),
    }
}

// Appends the digit of the low four bits, or nothing where memory runs out.
fn push_digit(out: &mut String, x: u8) -> Result<(), AllocError>
    ensures { string_bytes out.new ≡ (if is_ok result then string_bytes out.old ++ hex_digit_of x ∷ [] else string_bytes out.old) }
{
    out.push(char::from(hex_digit(x)))
}

// Appends the two lower case digits of each byte. Where memory runs out, a front of them is appended.
pub fn push_hex(out: &mut String, bytes: &[u8]) -> Result<(), AllocError>
    ensures ok { OnOk result (string_bytes out.new ≡ string_bytes out.old ++ hexed bytes.now) }
    ensures front { (k : ℕ) × (string_bytes out.new ≡ string_bytes out.old ++ take k (hexed bytes.now)) }
{
    for b in bytes {
        push_digit(out, *b / 16)?;
        push_digit(out, *b)?;
    }
    Ok(())
}

// The number that one to four digits in either case write.
pub fn hex_number(text: &[u8]) -> Option<u16>
    ensures { result ≡ hex_number_of text.now }
{
    if text.len() > 4 {
        return None;
    }
    u16::try_from(number::<16>(text)?).ok()
}

#[cfg(test)]
mod tests {
    use super::*;
    use crate::number::digit;
    use std::test::Fail;

    #[test]
    fn digits(rt: HostRuntime) {
        assert_eq!(rt; hex_digit(9), b'9');
        assert_eq!(rt; hex_digit(0xfa), b'a');
        assert_eq!(rt; digit::<16>(b'F'), Some(15));
        assert_eq!(rt; digit::<16>(b'g'), None);
    }

    #[test]
    fn numbers(rt: HostRuntime) {
        assert_eq!(rt; hex_number(b"fFfF"), Some(0xffff));
        assert_eq!(rt; hex_number(b"0"), Some(0));
        assert_eq!(rt; hex_number(b""), None);
        assert_eq!(rt; hex_number(b"00000"), None);
        assert_eq!(rt; hex_number(b"0x1"), None);
    }

    #[test]
    fn pushes(rt: HostRuntime) -> Result<(), Fail> {
        let mut out = String::from_str(rt.alloc(), "x=")?;
        push_hex(&mut out, &[0x00, 0x9f, 0xa0])?;
        assert_eq!(rt; out.as_str(), "x=009fa0");
        Ok(())
    }
}
