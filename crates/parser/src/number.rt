// Registers and integers.
ghost use Rattle.std.specs.Prelude.{◌≡◌};
ghost use Rattle.parser.specs.Numbers.{register_of, numeral, digits_of, integer_of};

use lexer::class::{Class, cut};

// `r0` to `r15`.
pub(crate) fn register_of(text: &str) -> Option<u8>
    ensures { result ≡ register_of text.now }
{
    match text.as_bytes() {
        [b'r', digit @ b'0'..=b'9'] => Some(*digit - b'0'),
        [b'r', b'1', digit @ b'0'..=b'5'] => Some(10 + (*digit - b'0')),
        _ => None,
    }
}

// 1 to 10 digits.
fn is_numeral(text: &str) -> bool
    ensures { result ≡ numeral text.now }
{
    let (_, rest) = cut(text, Class::Digit);
    matches!(text.len(), 1..=10) && rest.is_empty()
}

// The value modulo 2^32 of 1 to 10 digits.
#[tactic(auto, using(crate::proofs::Digits::parsed))]
fn digits_of(text: &str) -> Option<u32>
    ensures { result ≡ digits_of text.now }
{
    if !is_numeral(text) {
        return None;
    }
    let number = text.parse::<u64>().ok()?;
    Some((number % 0x1_0000_0000) as u32)
}

// The value modulo 2^32 of 1 to 10 digits after an optional minus.
#[tactic(auto, using(crate::proofs::Marks::stripped, crate::proofs::Marks::unmarked))]
pub(crate) fn integer_of(text: &str) -> Option<u32>
    ensures { result ≡ integer_of text.now }
{
    match text.strip_prefix('-') {
        Some(digits) => digits_of(digits).map(u32::wrapping_neg),
        None => digits_of(text),
    }
}
