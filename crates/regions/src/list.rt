// The regions of a text, one after the other. Document 01 names the form of the reader: it holds the text and an offset, over functions on
// slice and number. So the functions here and of the modules below pass the text and the offset as two.
ghost use Rattle.std.specs.Prelude.{◌≡◌};
ghost use Rattle.text.specs.Reading.{scanned};
ghost use Rattle.regions.specs.Steps.Parts.{separated_from, next_region};
ghost use Rattle.regions.specs.Steps.Progress.{one_more};

use crate::parts::{expect, region_at};
use crate::{MOST_REGIONS, Region};
use answer::{Refusal, Refused};
use text::Scanned;

// The ; after a region, or the end of the text.
#[tactic(auto, unfolding(crate::specs::Steps::Parts::separated_from))]
fn separated(text: &[u8], at: usize, region: Region) -> Scanned<Region>
    ensures { scanned result ≡ separated_from region text.now at }
{
    if at == text.len() {
        return Ok((region, at));
    }
    let (_, next) = expect(text, at, b';')?;
    Ok((region, next))
}

// A region, and what must stand after it.
#[tactic(auto, unfolding(crate::specs::Steps::Parts::next_region))]
fn next_region(text: &[u8], at: usize, before: &[Region]) -> Scanned<Region>
    ensures { scanned result ≡ next_region before.now text.now at }
{
    let (region, next) = region_at(text, at, before)?;
    separated(text, next, region)
}

// One region more, read from an offset, or none where the text ends there.
#[tactic(auto, unfolding(crate::specs::Steps::Progress::one_more))]
pub fn one_more(text: &[u8], at: usize, before: &[Region]) -> Scanned<Option<Region>>
    ensures { scanned result ≡ one_more before.now text.now at }
{
    if at == text.len() {
        return Ok((None, at));
    }
    if MOST_REGIONS <= before.len() {
        return Err(Refused {
            refusal: Refusal::TooManyRegions,
            place: at,
        });
    }
    let (region, next) = next_region(text, at, before)?;
    Ok((Some(region), next))
}
