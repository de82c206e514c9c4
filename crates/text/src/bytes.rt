// Bytes of a text. Past its end a text reads as 0, which no part of a text can be.
ghost use Rattle.std.specs.Prelude.{◌≡◌, ◌+◌, ◌*◌, ◌-◌, ◌≤◌, length};
ghost use Rattle.text.specs.Bytes.{byte_at, digit_of, unit_of, is_name_byte};

pub fn byte_at(text: &[u8], at: usize) -> u8
    ensures { (result ≡ byte_at text.now at) × (result ≤ 255 * (length text.now - at)) }
{
    text.get(at).copied().unwrap_or(0)
}

// The byte so many places after an offset, where both may be any numbers.
pub fn byte_after(text: &[u8], at: usize, i: usize) -> u8
    ensures { result ≡ byte_at text.now (at + i) }
{
    byte_at(text, at.saturating_add(i))
}

// The value of a digit of any base up to 16; 16 for any other byte. An option of it would be asked twice, whether it is a digit and whether
// the base has it.
#[tactic(auto, unfolding(crate::specs::Bytes::digit_of))]
pub fn digit_of(c: u8) -> u64
    ensures { result ≡ digit_of c }
{
    match c {
        b'0'..=b'9' => u64::from(c - b'0'),
        b'a'..=b'f' => u64::from(c - b'a') + 10,
        b'A'..=b'F' => u64::from(c - b'A') + 10,
        _ => 16,
    }
}

// What K, M and G multiply by; 1 for any other byte, which is no unit: what it multiplies stays, so the product needs no case.
#[tactic(auto, unfolding(crate::specs::Bytes::unit_of))]
pub fn unit_of(c: u8) -> u64
    ensures { result ≡ unit_of c }
{
    match c {
        b'K' | b'k' => 1024,
        b'M' | b'm' => 1048576,
        b'G' | b'g' => 1073741824,
        _ => 1,
    }
}

#[tactic(auto, unfolding(crate::specs::Bytes::is_name_byte))]
pub fn is_name_byte(c: u8) -> bool
    ensures { result ≡ is_name_byte c }
{
    matches!(c, b'a'..=b'z' | b'A'..=b'Z' | b'0'..=b'9' | b'-' | b'_')
}
