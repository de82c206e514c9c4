// Numbers of a text. A value above 2^48 is not told apart from any other such value: it is held as 2^48 + 1, so that no number wraps.
ghost use Rattle.std.specs.Prelude.{◌≡◌, ◌-◌, ◌<◌, ◌≤◌};
ghost use Rattle.text.specs.Numbers.{digits_end, digits_value, digits, number, cap, capped};
ghost use Rattle.text.specs.Reading.{scanned};
ghost use Rattle.text.specs.Steps.Digits.{some_digits, after_zero};

use crate::Scanned;
use crate::bytes::{byte_at, digit_of, unit_of};
use answer::{Refusal, Refused};

// The most that a byte amount may be.
pub const MOST_BYTES: u64 = 281474976710656;

// A number above 2^48.
const TOO_MUCH: u64 = MOST_BYTES + 1;

#[tactic(auto, unfolding(crate::specs::Numbers::cap))]
fn capped(v: u64) -> u64
    ensures { result ≡ cap v }
{
    v.min(TOO_MUCH)
}

// A base is 8, 10 or 16. It is a plain number, since the definitions take any and a value is reckoned with it: an enum would be made a number again in
// each function.
fn digits_end(text: &[u8], at: usize, base: u64) -> usize
    ensures { result ≡ digits_end base text.now at }
{
    for i in at..text.len() {
        if base <= digit_of(text[i]) {
            return i;
        }
    }
    at.max(text.len())
}

fn digits_value(text: &[u8], at: usize, end: usize, base: u64) -> u64
    requires { (0 < base) × (base ≤ 16) }
    ensures { result ≡ cap (digits_value base text.now at (end - at) 0) }
{
    let mut v = 0;
    for i in at..end {
        v = capped(v * base + digit_of(byte_at(text, i)));
    }
    v
}

// Digits of a base, and at most one unit after them.
fn digits(text: &[u8], at: usize, base: u64) -> Scanned<u64>
    requires { (0 < base) × (base ≤ 16) }
    ensures { scanned result ≡ capped (digits base text.now at) }
{
    let end = digits_end(text, at, base);
    let unit = unit_of(byte_at(text, end));
    let v = capped(digits_value(text, at, end, base).saturating_mul(unit));
    if unit == 1 {
        return Ok((v, end));
    }
    Ok((v, end + 1))
}

// One or more digits of a base.
fn some_digits(text: &[u8], at: usize, base: u64) -> Scanned<u64>
    requires { (0 < base) × (base ≤ 16) }
    ensures { scanned result ≡ capped (some_digits base text.now at) }
{
    if base <= digit_of(byte_at(text, at)) {
        return Err(Refused {
            refusal: Refusal::UnexpectedByte,
            place: at,
        });
    }
    digits(text, at, base)
}

// A number that begins with 0, from the byte after it on.
fn after_zero(text: &[u8], at: usize) -> Scanned<u64>
    ensures { scanned result ≡ capped (after_zero text.now at) }
{
    if byte_at(text, at) == b'x' {
        return some_digits(text, at + 1, 16);
    }
    digits(text, at, 8)
}

// A number: 0x and one or more hex digits, 0 and octal digits, or decimal digits, and at most one unit after them.
#[tactic(auto, unfolding(crate::specs::Numbers::number))]
pub fn number(text: &[u8], at: usize) -> Scanned<u64>
    ensures { scanned result ≡ capped (number text.now at) }
{
    if byte_at(text, at) == b'0' {
        return after_zero(text, at + 1);
    }
    some_digits(text, at, 10)
}
