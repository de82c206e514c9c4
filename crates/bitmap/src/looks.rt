// The search of a bitmap by whole words. Its two steps, `next_open` and `clear_bits`, tell how many bits come before what is looked for, and how
// many words were looked at. A word is read in `look` alone, which counts it, and `look` is called at one place; a test sees that in the source
// (bindings/rust/tests/looks.rs). A full or an empty word is passed at once. Within, the count is exact: the words from the first to the one that
// holds what is found, but none past the slice's end. The rules say nothing of it, so the two steps promise no more than the bound, those words.
ghost use Rattle.std.specs.Prelude.{suc, ◌+◌, ◌%◌, ◌≤◌, ◌<◌, min, ◌≡◌, not, eqb, length, get_or};
ghost use Rattle.search.specs.Search.{lowest};
ghost use Rattle.bitmap.specs.Bits.{bit_of, is_clear, opens, spanned};
ghost use Rattle.bitmap.specs.Steps.Looks.{wanted_in, run_of, starts_of, Smears, Hits, Finds};

// A bitmap that begins at a word of its own, `start`, among the words lent.
#[derive(Clone, Copy)]
pub struct Bitmap<'a> {
    pub words: &'a [u64],
    pub start: usize,
}

// How many bits were passed, and how many words looked at.
#[derive(Clone, Copy)]
pub struct Found {
    pub bits: usize,
    pub looks: usize,
}

// A word, and the count of looks with that at this word.
#[derive(Clone, Copy)]
struct Seen {
    word: u64,
    looks: usize,
}

// What a step looks for: a set bit; or, of the bits that `starts` has set in each word, one at which a run of so many clear ones could begin. It is
// an enum that one function takes, which is inlined, and no trait, so that each function on the way to a word is written once, which a test reads.
#[derive(Clone, Copy)]
enum Sought {
    Set,
    Open { run: usize, starts: u64 },
}

// A bit is set here where it or one of the next is, of `reach` bits in all. What is told of doubles, which no range counts.
fn smeared(w: u64, reach: usize) -> u64
    requires { (0 < reach) × (reach ≤ 64) }
    ensures { Smears reach w result }
{
    let mut x = w;
    let mut told = 1;
    while told <= reach - told {
        x |= x >> told;
        told += told;
    }
    x | (x >> (reach - told))
}

// How many of `left` bits from bit `low` on come before the first that is set. Where none are left, `low` may be behind the word's last bit.
fn clear_in(w: u64, low: usize, left: usize) -> usize
    requires { low + left ≤ 64 }
    ensures { result ≡ lowest (λ k. not (eqb (bit_of w (low + k)) 0)) left }
{
    if left == 0 {
        return left;
    }
    left.min((w >> low).trailing_zeros() as usize)
}

impl Sought {
    // The bits of a word that are looked for. A run of none is as one of one. A whole word's reach stands by itself, so that its smearing compiles
    // to straight code.
    fn hits(self, w: u64) -> u64
        ensures { Hits (run_of self) (starts_of self) w result }
    {
        match self {
            Sought::Set => w,
            Sought::Open { run, starts } => {
                if run < 64 {
                    return !smeared(w, run.max(1)) & starts;
                }
                !smeared(w, 64) & starts
            }
        }
    }

    // How many of `left` bits from bit `low` of a word on come before the first that is looked for, past the words' end, where every bit is
    // clear: what is not in the rest of one word, nor in the next, is nowhere.
    fn past_end(self, low: usize, left: usize) -> usize
        requires { low < 64 }
        ensures { result ≡ lowest (λ k. wanted_in (run_of self) (starts_of self) 0 ((low + k) % 64)) left }
    {
        let empty = self.hits(0);
        let here = left.min(64 - low);
        let near = clear_in(empty, low, here);
        if near < here {
            return near;
        }
        let next = (left - here).min(64);
        let far = clear_in(empty, 0, next);
        if far < next {
            return here + far;
        }
        left
    }
}

impl Bitmap<'_> {
    // The only read of a word in a search.
    fn look(self, at: usize, looks: usize) -> Seen
        requires { (at < length self.words.now) × (looks ≤ at) }
        ensures { (result.word ≡ get_or self.entry.words.now at 0) × (result.looks ≡ looks + 1) }
    {
        Seen {
            word: self.words[at],
            looks: looks + 1,
        }
    }

    // How many of the `count` bits from bit `from` on come before the first that is looked for. It is inlined, so that each step has a loop of
    // its own, in which it is known what is looked for.
    #[inline(always)]
    fn passed(self, from: usize, count: usize, sought: Sought) -> Found
        ensures { Finds (run_of sought) (starts_of sought) self.entry.words.now self.entry.start from count result }
    {
        let mut low = from % 64;
        let mut left = count;
        let mut looks = 0;
        for at in self.start.saturating_add(from / 64)..self.words.len() {
            if left == 0 {
                return Found { bits: count, looks };
            }
            let seen = self.look(at, looks);
            looks = seen.looks;
            let part = left.min(64 - low);
            let near = clear_in(sought.hits(seen.word), low, part);
            if near < part {
                return Found {
                    bits: count - left + near,
                    looks,
                };
            }
            left -= part;
            low = 0;
        }
        Found {
            bits: count - left + sought.past_end(low, left),
            looks,
        }
    }

    // The next clear bit that a run of `run` bits could begin at, as far as its word tells, of the bits that `starts` has set in each word: how
    // many of the `count` bits from bit `from` on come before it. For a run of one it is the next such clear bit, and one of none is as one of one.
    pub fn next_open(self, from: usize, count: usize, run: usize, starts: u64) -> Found
        ensures { (result.bits ≡ lowest (λ k. opens self.entry.words.now self.entry.start run starts (from + k)) count) × (result.looks ≤ spanned from (min (suc result.bits) count)) }
    {
        self.passed(from, count, Sought::Open { run, starts })
    }

    // Whether a candidate's bits are clear: how many of the `count` bits from bit `from` on come before the first that is set.
    pub fn clear_bits(self, from: usize, count: usize) -> Found
        ensures { (result.bits ≡ lowest (λ k. not (is_clear self.entry.words.now self.entry.start (from + k))) count) × (result.looks ≤ spanned from (min (suc result.bits) count)) }
    {
        self.passed(from, count, Sought::Set)
    }
}
