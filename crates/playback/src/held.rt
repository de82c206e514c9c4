// The tables that a replay holds: so many frames, and so many bitmap words that it lends, all zero at first.
ghost use Rattle.std.specs.Prelude.{◌≡◌, replicate};
ghost use Rattle.playback.specs.Replay.{held_frames, held_bitmap_words};

const FRAMES: usize = 2048;

const BITMAP_WORDS: usize = 96;

#[derive(Clone, Copy)]
pub struct Held {
    pub marks: [u32; FRAMES],
    pub words: [u64; FRAMES],
    pub bitmap: [u64; BITMAP_WORDS],
    pub owners: [u32; FRAMES],
}

impl Held {
    pub fn zero() -> Self
        ensures marks { result.marks ≡ replicate held_frames 0 }
        ensures words { result.words ≡ replicate held_frames 0 }
        ensures bitmap { result.bitmap ≡ replicate held_bitmap_words 0 }
        ensures owners { result.owners ≡ replicate held_frames 0 }
    {
        Held {
            marks: [0; FRAMES],
            words: [0; FRAMES],
            bitmap: [0; BITMAP_WORDS],
            owners: [0; FRAMES],
        }
    }
}
