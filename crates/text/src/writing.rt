// Bytes, labels and decimal numbers, appended to a lent buffer. A text is written whole, or where it has no room not at all.
ghost use Rattle.std.specs.Prelude.{◌≡◌, ◌∷◌, [], ◌++◌, ◌+◌, ◌≤◌, length, leb};
ghost use Rattle.text.specs.Writing.{decimal, last_digits, four_numbers, labelled, DigitsCounted, Appends};

// How many digits a number has.
#[tactic(auto, using(crate::proofs::Decimal::counted))]
pub fn digit_count(value: u64) -> usize
    ensures { DigitsCounted value result }
{
    value.max(1).ilog10() as usize + 1
}

// Whether `size` bytes have room from `at` on in a buffer of `length` bytes.
pub fn has_room(length: usize, at: usize, size: usize) -> bool
    ensures { result ≡ leb (at + size) length }
{
    length.checked_sub(at).is_some_and(|room| size <= room)
}

// Fills a part of a buffer with the last digits of a number, the last one first. Its places are counted: of `iter_mut().rev()` no contract says
// what the part holds after it.
#[tactic(auto, using(crate::proofs::Filling::filled_more))]
fn fill(digits: &mut [u8], value: u64)
    ensures { digits.new ≡ last_digits (length digits.old) value }
{
    let mut rest = value;
    for i in (0..digits.len()).rev() {
        digits[i] = b'0' + (rest % 10) as u8;
        rest /= 10;
    }
}

// A text that is written to the front of a lent buffer, and how long it is. A lent buffer and no String, since there is no heap. Its length may
// pass its buffer, so that it does not is a clause where it is needed, and no invariant.
#[derive(Drop)]
pub struct Writer<'a> {
    pub buffer: &'a mut [u8],
    pub length: usize,
}

impl<'a> Writer<'a> {
    // A text as it stands.
    pub fn put_bytes(&mut self, text: &[u8])
        ensures { Appends text.now self.old self.new }
    {
        if !has_room(self.buffer.len(), self.length, text.len()) {
            return;
        }
        let end = self.length + text.len();
        self.buffer[self.length..end].copy_from_slice(text);
        self.length = end;
    }

    // The last digits of a number and the byte that ends them. With as many digits as the number has, counted before, it is the number.
    pub fn put_digits(&mut self, value: u64, count: usize, end: u8)
        ensures { Appends (last_digits count value ++ (end ∷ [])) self.old self.new }
    {
        let at = self.length;
        if self.buffer.len().saturating_sub(at) <= count {
            return;
        }
        fill(&mut self.buffer[at..at + count], value);
        self.buffer[at + count] = end;
        self.length = at + count + 1;
    }

    // A number in decimal.
    pub fn put_number(&mut self, value: u64)
        ensures { Appends (decimal value) self.old self.new }
    {
        let count = digit_count(value);
        if !has_room(self.buffer.len(), self.length, count) {
            return;
        }
        let end = self.length + count;
        fill(&mut self.buffer[self.length..end], value);
        self.length = end;
    }

    // Four numbers with a space between them, and the line's end. The room of the whole line is tested before anything is written.
    pub fn put_four(&mut self, a: u64, b: u64, c: u64, d: u64)
        ensures { Appends (four_numbers a b c d) self.old self.new }
    {
        let digits_a = digit_count(a);
        let digits_b = digit_count(b);
        let digits_c = digit_count(c);
        let digits_d = digit_count(d);
        if !has_room(
            self.buffer.len(),
            self.length,
            digits_a + digits_b + digits_c + digits_d + 4,
        ) {
            return;
        }
        self.put_digits(a, digits_a, b' ');
        self.put_digits(b, digits_b, b' ');
        self.put_digits(c, digits_c, b' ');
        self.put_digits(d, digits_d, b'\n');
    }

    // A label, a number and the line's end.
    pub fn put_labelled(&mut self, label: &[u8], value: u64)
        ensures { Appends (labelled label.now value) self.old self.new }
    {
        let count = digit_count(value);
        if !has_room(self.buffer.len(), self.length, label.len() + count + 1) {
            return;
        }
        self.put_bytes(label);
        self.put_digits(value, count, b'\n');
    }
}
