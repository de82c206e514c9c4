// The longest row of clear bits of a bitmap, by the two steps of the search, which alone read its words. A row that could be longer than those
// found begins only at a bit that opens for one, so a word that has no such bit is passed at one look.
ghost use Rattle.std.specs.Prelude.{◌≡◌};
ghost use Rattle.search.specs.Search.{longest};
ghost use Rattle.bitmap.specs.Bits.{is_clear};

use crate::looks::Bitmap;

impl Bitmap<'_> {
    // How many bits the longest row of clear ones has, among the first `count` bits. Where the bits left are no more than those of a row that
    // was found, none of them needs a look.
    pub fn longest_clear(self, count: usize) -> usize
        ensures { result ≡ longest (is_clear self.entry.words.now self.entry.start) 0 count }
    {
        let mut found = 0;
        let mut from = 0;
        // Each turn passes as many bits as were found, which no range counts.
        while found < count - from {
            let open = self.next_open(from, count - from, found + 1, u64::MAX);
            from += open.bits;
            let clear = self.clear_bits(from, count - from);
            found = found.max(clear.bits);
            from += clear.bits;
        }
        found
    }
}
