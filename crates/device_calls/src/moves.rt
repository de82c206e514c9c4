// A run becomes a grant: its movable pages go out, one after the other, and its frames are marked.
ghost use Rattle.std.specs.Prelude.{◌≡◌, [], ◌-◌, ◌≤◌, ◌<◌, length};
ghost use Rattle.search.specs.Search.{lowest_from};
ghost use Rattle.frames.specs.Marks.{has_kind, movable};
ghost use Rattle.frames.specs.Tables.{tables};
ghost use Rattle.frames.specs.Scans.{marked};
ghost use Rattle.rules.specs.Limits.{most_frames};
ghost use Rattle.rules.specs.Does.{record_in};
ghost use Rattle.rules.specs.DeviceCalls.{move_out, mark_run};
ghost use Rattle.device_calls.specs.Steps.DeviceSteps.{page_moved, LeavesArea};

use frames::{Kind, OrderedAreas, Place, Seeking, fill};
use rules::LentRecord;

// The lowest place of a range that has a movable page; the range's end where there is none, as in the scans of `frames`: the loop over the pages
// ends there. The scans of `frames` stay inside it: they ask for a range within the marks, and what another crate can call asks for nothing.
fn next_movable(marks: &[u32], from: Place, end: Place) -> Place
    requires { (from.0 ≤ end.0) × (end.0 ≤ length marks.now) }
    ensures { result.0 ≡ lowest_from (marked (has_kind movable) marks.now) from.0 (end.0 - from.0) }
{
    for i in from.0..end.0 {
        if Kind::Movable.is_of(marks[i]) {
            return Place(i);
        }
    }
    end
}

// The page at a place goes to another, with its mark and word, where the tables reach that. That the place is in the tables joins the two, so
// neither's type can hold it.
fn move_page(marks: &mut [u32], words: &mut [u64], page: Place, to: Place)
    requires { (page.0 < length marks.old) × (page.0 < length words.old) }
    ensures { tables marks.new words.new [] [] ≡ page_moved (tables marks.old words.old [] []) page to }
{
    let mark = marks[page.0];
    let word = words[page.0];
    fill(marks, to.0, 1, mark);
    fill(words, to.0, 1, word);
    marks[page.0] = Kind::Free.mark(0);
    words[page.0] = 0;
}

// The movable pages of a run that lies in an area go out, ascending, each to the first target then. No place that was passed is a target any
// more, so that the next search begins where the last one ended.
pub(crate) fn move_out(
    lent: LentRecord,
    marks: &mut [u32],
    words: &mut [u64],
    area: u64,
    page: Place,
    count: u64,
)
    requires { LeavesArea (record_in lent) area page.0 count × (length marks.old ≡ lent.memory.frames) × (length words.old ≡ lent.memory.frames) }
    ensures { tables marks.new words.new [] [] ≡ move_out (record_in lent.entry) (tables marks.old words.old [] []) area page count }
{
    let end = Place(page.0 + count as usize);
    let mut at = next_movable(marks, page, end);
    if end.0 <= at.0 {
        return;
    }
    let areas = OrderedAreas::new(lent.memory.base, lent.areas, lent.memory.declared);
    let mut seeking = Seeking::none();
    // Each turn goes to the next page that must move, which no range counts.
    while at.0 < end.0 {
        seeking = areas.next_target(marks, area as usize, seeking);
        move_page(marks, words, at, seeking.place());
        at = next_movable(marks, Place(at.0 + 1), end);
    }
}

// The marks and words of a run that is granted: the first mark has the count, the others are 5, and the words are 0.
pub(crate) fn mark_run(marks: &mut [u32], words: &mut [u64], page: Place, count: u64)
    requires { (0 < count) × (count ≤ most_frames) × (page.0 < length marks.old) × (page.0 < length words.old) }
    ensures { tables marks.new words.new [] [] ≡ mark_run (tables marks.old words.old [] []) page count }
{
    let rest = page.0 + 1;
    marks[page.0] = Kind::Head.mark(count as u32);
    words[page.0] = 0;
    fill(marks, rest, count - 1, Kind::Later.mark(0));
    fill(words, rest, count - 1, 0);
}
