// Names of regions, and of their allocator.
ghost use Rattle.std.specs.Prelude.{◌≡◌};
ghost use Rattle.text.specs.Names.{name};
ghost use Rattle.text.specs.Reading.{scanned};
ghost use Rattle.regions.specs.Text.{is_named, is_first_fit, allocator};
ghost use Rattle.regions.specs.Steps.Parts.{same_name, new_name};

use crate::Region;
use crate::parts::expect;
use answer::{Refusal, Refused};
use text::Scanned;
use text::bytes::{byte_after, byte_at};
use text::names::{name_length, same_bytes};

fn same_name(text: &[u8], at: usize, n: usize, region: Region) -> bool
    ensures { result ≡ same_name region text.now at n }
{
    region.length == n && same_bytes(text, at, region.name, n)
}

// One of the regions has the name of n bytes at an offset.
fn is_named(text: &[u8], at: usize, n: usize, before: &[Region]) -> bool
    ensures { result ≡ is_named before.now text.now at n }
{
    before.iter().any(|region| same_name(text, at, n, *region))
}

// A name, of one byte at the least: gives its length.
fn name(text: &[u8], at: usize) -> Scanned<usize>
    ensures { scanned result ≡ name text.now at }
{
    let n = name_length(text, at);
    if n == 0 {
        return Err(Refused {
            refusal: Refusal::UnexpectedByte,
            place: at,
        });
    }
    Ok((n, at + n))
}

// A name that no region has yet, and the = after it: gives its length.
#[tactic(auto, unfolding(crate::specs::Steps::Parts::new_name))]
pub fn new_name(text: &[u8], at: usize, before: &[Region]) -> Scanned<usize>
    ensures { scanned result ≡ new_name before.now text.now at }
{
    let (n, end) = name(text, at)?;
    if is_named(text, at, n, before) {
        return Err(Refused {
            refusal: Refusal::NameRepeated,
            place: at,
        });
    }
    let (_, next) = expect(text, end, b'=')?;
    Ok((n, next))
}

// The only allocator is ff.
fn is_first_fit(text: &[u8], at: usize, n: usize) -> bool
    ensures { result ≡ is_first_fit text.now at n }
{
    n == 2 && byte_at(text, at) == b'f' && byte_after(text, at, 1) == b'f'
}

pub fn allocator(text: &[u8], at: usize) -> Scanned<usize>
    ensures { scanned result ≡ allocator text.now at }
{
    let (n, end) = name(text, at)?;
    if !is_first_fit(text, at, n) {
        return Err(Refused {
            refusal: Refusal::UnknownAllocator,
            place: at,
        });
    }
    Ok((n, end))
}
