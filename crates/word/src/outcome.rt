// The operators on words: what is stored, and the flag.
ghost use Rattle.std.specs.Prelude.{◌≡◌, ◌*◌, ◌/◌, ◌%◌, ◌^◌, ◌≤◌, pos, int_lt, unsigned_abs};
ghost use Rattle.std.proofs.Common.{to_z};
ghost use Rattle.std.specs.Int.{w32};
ghost use Rattle.word.specs.Arithmetic.{bitwise, inverted, added, subtracted, multiplied_low, multiplied_high, signed_high, or_zero, shifted_left, shifted_right, computed, compared};

use crate::operator::{Arithmetic, Comparison};

// The word that an instruction stores, and the flag that it sets.
#[derive(Clone, Copy, PartialEq, Eq, Debug)]
pub struct Outcome {
    pub value: u32,
    pub flag: bool,
}

// The flag of a bit operation says that the result is 0.
fn bits(value: u32) -> Outcome
    ensures { result ≡ bitwise value }
{
    Outcome {
        value,
        flag: value == 0,
    }
}

fn add(x: u32, a: u32) -> Outcome
    ensures { result ≡ added x a }
{
    let (value, flag) = x.overflowing_add(a);
    Outcome { value, flag }
}

fn sub(x: u32, a: u32) -> Outcome
    ensures { result ≡ subtracted x a }
{
    let (value, flag) = x.overflowing_sub(a);
    Outcome { value, flag }
}

// The low and the high word of the unsigned product.
fn halves(x: u32, a: u32) -> (u32, u32)
    ensures low { result.0 ≡ (x * a) % 2 ^ 32 }
    ensures high { result.1 ≡ (x * a) / 2 ^ 32 }
{
    let product = u64::from(x) * u64::from(a);
    (
        (product % 0x1_0000_0000) as u32,
        (product / 0x1_0000_0000) as u32,
    )
}

fn mull(x: u32, a: u32) -> Outcome
    ensures { result ≡ multiplied_low x a }
{
    let (low, high) = halves(x, a);
    Outcome {
        value: low,
        flag: high != 0,
    }
}

fn umulh(x: u32, a: u32) -> Outcome
    ensures { result ≡ multiplied_high x a }
{
    let (_, high) = halves(x, a);
    Outcome {
        value: high,
        flag: high != 0,
    }
}

// The size of a word that is taken as signed.
fn magnitude(x: u32) -> u32
    ensures value { result ≡ unsigned_abs (to_z w32 x) }
    ensures bound { result ≤ 2 ^ 31 }
{
    x.cast_signed().unsigned_abs()
}

fn is_negative(x: u32) -> bool
    ensures { result ≡ int_lt (to_z w32 x) (pos 0) }
{
    x.cast_signed().is_negative()
}

// A signed product by its sign and its size: the lowest signed word is as large as no other.
fn smulh(x: u32, a: u32) -> Outcome
    ensures { result ≡ signed_high x a }
{
    let product = u64::from(magnitude(x)) * u64::from(magnitude(a));
    let high = (product / 0x1_0000_0000) as u32;
    if is_negative(x) == is_negative(a) || product == 0 {
        Outcome {
            value: high,
            flag: product >= 0x8000_0000,
        }
    } else {
        Outcome {
            value: high + 0x8000_0000,
            flag: product > 0x8000_0000,
        }
    }
}

// Where a division has no result, 0 and the flag.
fn or_zero(value: Option<u32>) -> Outcome
    ensures { result ≡ or_zero value }
{
    Outcome {
        value: value.unwrap_or(0),
        flag: value.is_none(),
    }
}

fn shl(x: u32, a: u32) -> Outcome
    ensures { result ≡ shifted_left x a }
{
    Outcome {
        value: x.checked_shl(a).unwrap_or(0),
        flag: x >= 0x8000_0000,
    }
}

fn shr(x: u32, a: u32) -> Outcome
    ensures { result ≡ shifted_right x a }
{
    Outcome {
        value: x.checked_shr(a).unwrap_or(0),
        flag: x % 2 == 1,
    }
}

// What `op ri, rj, A` makes of the word in `rj` and of `A`.
pub fn compute(by: Arithmetic, x: u32, a: u32) -> Outcome
    ensures { result ≡ computed by x a }
{
    match by {
        Arithmetic::And => bits(x & a),
        Arithmetic::Or => bits(x | a),
        Arithmetic::Xor => bits(x ^ a),
        Arithmetic::Add => add(x, a),
        Arithmetic::Sub => sub(x, a),
        Arithmetic::Mull => mull(x, a),
        Arithmetic::Umulh => umulh(x, a),
        Arithmetic::Smulh => smulh(x, a),
        Arithmetic::Udiv => or_zero(x.checked_div(a)),
        Arithmetic::Umod => or_zero(x.checked_rem(a)),
        Arithmetic::Shl => shl(x, a),
        Arithmetic::Shr => shr(x, a),
    }
}

// What `not ri, A` makes of `A`.
pub fn invert(a: u32) -> Outcome
    ensures { result ≡ inverted a }
{
    bits(!a)
}

// The flag that `op ri, A` sets, from the word in `ri` and from `A`.
pub fn compare(by: Comparison, x: u32, a: u32) -> bool
    ensures { result ≡ compared by x a }
{
    match by {
        Comparison::Equal => x == a,
        Comparison::Above => x > a,
        Comparison::AboveOrEqual => x >= a,
        Comparison::Greater => x.cast_signed() > a.cast_signed(),
        Comparison::GreaterOrEqual => x.cast_signed() >= a.cast_signed(),
    }
}
