// Every exported call: the lists that it is lent are judged, the call is performed on the record that they hold, and its outcome is given
// back in them.
ghost use Rattle.std.specs.Prelude.{◌≡◌, ◌≤◌, length};
ghost use Rattle.answer.specs.Answers.{answer_at};
ghost use Rattle.frames.specs.Lent.{tables_in, SameSlices};
ghost use Rattle.machine.specs.Does.{beside};
ghost use Rattle.szk.specs.Layout.{record_length, answer_length, own_numbers, answer_numbers, over};
ghost use Rattle.szk.specs.Exported.{handed, exported, buffer_left};
ghost use Rattle.szk.specs.Steps.Judged.{Judged};

use crate::layout;
use answer::{Answer, Refusal, Refused};
use frames::LentTables;
use machine::{Machine, Returned};
use rules::Call;

// Whether the record or the answer is too short for a call. Either is refused as the wrong shape; an answer that is too short gets the
// refusal's number alone. It answers whether the call ends here: each of the two is written in another way.
fn refuse_short(numbers: &[u64], answer: &mut [u64]) -> bool
    ensures { Judged numbers.now answer.old result answer.new }
{
    if answer.len() < layout::ANSWER {
        layout::store_refusal(answer, Refusal::WrongShape);
        return true;
    }
    if numbers.len() < layout::RECORD {
        layout::store_answer(
            answer,
            Answer::from(Err(Refused::from(Refusal::WrongShape))),
        );
        return true;
    }
    false
}

// The memory, the counters and the answer that a call returned are written over the numbers lent.
fn give_back(numbers: &mut [u64], answer: &mut [u64], returned: Returned)
    requires { (record_length ≤ length numbers.old) × (answer_length ≤ length answer.old) }
    ensures numbers_after { numbers.new ≡ over (own_numbers returned.machine.memory returned.machine.counters) numbers.old }
    ensures answer_after { answer.new ≡ over (answer_numbers (answer_at returned.answer)) answer.old }
{
    layout::store(numbers, returned.machine.memory, returned.machine.counters);
    layout::store_answer(answer, Answer::from(returned.answer));
}

// A call is performed on what its caller lends, the areas' numbers where they stand. The text is a boot's and the buffer a report's, and no other
// call looks at them.
pub fn call(
    numbers: &mut [u64],
    tables: &mut LentTables,
    answer: &mut [u64],
    call: Call,
    text: &[u8],
    buffer: &mut [u8],
)
    ensures same { SameSlices tables.old tables.new }
    ensures exports { handed numbers.new (tables_in tables.new) answer.new ≡ exported call (beside call text.now buffer.old) (handed numbers.old (tables_in tables.old) answer.old) }
    ensures buffer_after { buffer.new ≡ buffer_left call buffer.old (handed numbers.old (tables_in tables.old) answer.old) }
{
    if refuse_short(numbers, answer) {
        return;
    }
    let machine = Machine {
        memory: layout::load(numbers),
        counters: layout::load_counters(numbers),
    };
    let areas = &mut numbers[layout::AREAS_START..layout::RECORD];
    let returned = machine.perform(areas, tables, call, text, buffer);
    give_back(numbers, answer, returned);
}
