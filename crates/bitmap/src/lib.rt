// Bits of lent 64-bit words: a run of them tested, set or cleared. Bit j of a bitmap is bit j mod 64, lowest first, of its word j / 64;
// several bitmaps share the words, each from a word of its own, `start`. A run is walked by words, so no bit number is ever computed
// that could be too large. Past the words' end a bit is clear, and there is nothing to change.
#![tactic(auto)]

ghost use Rattle.std.specs.Prelude.{◌+◌, ◌-◌, ◌^◌, ◌≤◌, ◌<◌, ◌≡◌};
ghost use Rattle.bitmap.specs.Bits.{change_bits};
ghost use Rattle.bitmap.specs.Steps.Words.{change_in, put_in};

mod longest;
mod looks;

pub use looks::{Bitmap, Found};

// Ones at the `count` bits from bit `low` on, which lie in a word.
fn mask(low: usize, count: usize) -> u64
    requires { (0 < count) × (low + count ≤ 64) }
    ensures { result ≡ 2 ^ (count + low) - 2 ^ low }
{
    (u64::MAX >> (64 - count)) << low
}

// The word with those bits set, or clear, as `bit` says.
fn changed(w: u64, low: usize, count: usize, bit: bool) -> u64
    requires { (0 < count) × (low + count ≤ 64) }
    ensures { result ≡ change_in (put_in bit) w low count }
{
    if bit {
        return w | mask(low, count);
    }
    w & !mask(low, count)
}

// Sets the `count` bits from bit `from` on, of the bitmap that begins at word `start`, or clears them, as `bit` says, which
// is what is put, and chooses no step.
pub fn put_run(words: &mut [u64], start: usize, from: usize, count: usize, bit: bool)
    ensures { words.new ≡ change_bits (put_in bit) words.old start from count }
{
    let mut low = from % 64;
    let mut left = count;
    for at in start.saturating_add(from / 64)..words.len() {
        if left == 0 {
            break;
        }
        let part = left.min(64 - low);
        words[at] = changed(words[at], low, part, bit);
        left -= part;
        low = 0;
    }
}
