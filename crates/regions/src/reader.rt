// Reading a text's regions one after the other.
ghost use Rattle.std.specs.Prelude.{◌≡◌};
ghost use Rattle.regions.specs.Text.{regions};
ghost use Rattle.regions.specs.Result.{result_of};
ghost use Rattle.regions.specs.Outcome.{regions_in};
ghost use Rattle.regions.specs.Steps.Progress.{one_more, read_to};

use crate::list::one_more;
use crate::{MOST_TEXT, Region, Regions};
use answer::{Refusal, Refused};

// A reader of regions: it keeps hold of the text and of its place in it, the offset where it reads on.
#[derive(Clone, Copy)]
struct Reader<'a> {
    text: &'a [u8],
    place: usize,
}

impl<'a> Reader<'a> {
    // The next region after those before it, or none where the text ends here. The reader comes to the place after what it read.
    fn next(&mut self, before: &[Region]) -> Result<Option<Region>, Refused>
        ensures text { self.new.text ≡ self.old.text }
        ensures read { read_to result self.new.place ≡ one_more before.now self.old.text.now self.old.place }
    {
        let (region, place) = one_more(self.text, self.place, before)?;
        self.place = place;
        Ok(region)
    }
}

// The regions of a text. Its length is judged first; then the reader reads on, one region after the other, to the end of the text.
pub fn read_regions(text: &[u8]) -> Result<Regions, Refused>
    ensures { regions_in result ≡ result_of (regions text.now) }
{
    if MOST_TEXT < text.len() {
        return Err(Refused {
            refusal: Refusal::TextTooLong,
            place: MOST_TEXT,
        });
    }
    let mut known = Regions::none();
    let mut reader = Reader { text, place: 0 };
    while let Some(region) = reader.next(known.as_slice())? {
        known.push(region);
    }
    Ok(known)
}
