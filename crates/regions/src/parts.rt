// A region, part by part, from left to right: each part is read where the one before it ended.
ghost use Rattle.std.specs.Prelude.{◌≡◌, ◌<◌};
ghost use Rattle.text.specs.Reading.{scanned};
ghost use Rattle.regions.specs.Amounts.{amount};
ghost use Rattle.regions.specs.Text.{expect, optional, allocator, region};
ghost use Rattle.regions.specs.Steps.Parts.{wrong_for};

use crate::Region;
use crate::amounts::{Purpose, amount};
use crate::names::{allocator, new_name};
use answer::{Refusal, Refused};
use text::Scanned;
use text::bytes::byte_at;

// A byte that must stand at an offset.
pub fn expect(text: &[u8], at: usize, byte: u8) -> Scanned<u8>
    requires { 0 < byte }
    ensures { scanned result ≡ expect byte text.now at }
{
    if byte_at(text, at) != byte {
        return Err(Refused {
            refusal: Refusal::UnexpectedByte,
            place: at,
        });
    }
    Ok((byte, at + 1))
}

// An amount that a byte announces, or 0, as one given as 0 is: the rules do not tell them apart.
fn optional_amount(text: &[u8], at: usize, byte: u8, purpose: Purpose) -> Scanned<u64>
    requires { 0 < byte }
    ensures { scanned result ≡ optional byte (amount (wrong_for purpose)) 0 text.now at }
{
    if byte_at(text, at) != byte {
        return Ok((0, at));
    }
    amount(text, at + 1, purpose)
}

// An allocator that a : announces, or none. The part that is read is all that this and the function above differ in, but a closure for it is no
// plainer: it would ask for a contract at each of the three calls.
fn optional_allocator(text: &[u8], at: usize) -> Scanned<usize>
    ensures { scanned result ≡ optional 58 allocator 0 text.now at }
{
    if byte_at(text, at) != b':' {
        return Ok((0, at));
    }
    allocator(text, at + 1)
}

// A region: its name, its size and what may follow.
#[tactic(auto, using(crate::proofs::Naming::region_steps))]
pub fn region_at(text: &[u8], at: usize, before: &[Region]) -> Scanned<Region>
    ensures { scanned result ≡ region before.now text.now at }
{
    let (length, end) = new_name(text, at, before)?;
    let (size, size_end) = amount(text, end, Purpose::Size)?;
    let (start, start_end) = optional_amount(text, size_end, b'@', Purpose::Start)?;
    let (alignment, alignment_end) = optional_amount(text, start_end, b'/', Purpose::Alignment)?;
    let (_, next) = optional_allocator(text, alignment_end)?;
    let region = Region {
        name: at,
        length,
        size,
        start,
        alignment,
    };
    Ok((region, next))
}
