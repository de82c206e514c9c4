// What the program keeps from turn to turn, with what its numbers keep to, so that no place lies outside a buffer and no offset and no step wraps.
ghost use Rattle.std.specs.Prelude.{◌+◌, ◌*◌, ◌≤◌, ◌^◌};
ghost use Rattle.replay.specs.Steps.Block.{block};

use rules::{Counters, Record};

// A proved loop has to end, and nothing says that the input does: so the loop has a budget of turns, which no run uses up, and of which each
// takes at most a block of input.
const TURNS: u64 = 140737488355328;

// What is kept from turn to turn: its places lie in the block, and no more offsets and steps can follow than its turns allow.
// A literal gives each field, since a struct with such facts takes no `..`.
#[derive(Clone, Copy)]
pub(crate) struct State {
    pub record: Record,
    pub counters: Counters,
    // The turns that are left.
    pub left: u64,
    // How many bytes of the block are filled, and the place in it of the next record.
    pub filled: usize,
    pub at: usize,
    // The block's first offset in the input, and the number of records before `at`.
    pub offset: u64,
    pub step: u64,
    // Nothing more can be read. A flag of its own: no other field loses its meaning where it is set.
    pub ended: bool,
    ghost inside: { at ≤ filled },
    ghost most: { filled ≤ block },
    ghost steps: { step ≤ offset + at },
    ghost budget: { offset + at + block * left ≤ 2 ^ 63 },
}

impl State {
    pub(crate) fn start() -> Self {
        State {
            record: Record::fresh(),
            counters: Counters::zero(),
            left: TURNS,
            filled: 0,
            at: 0,
            offset: 0,
            step: 0,
            ended: false,
        }
    }
}
