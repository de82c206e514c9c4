// Names of a text.
ghost use Rattle.std.specs.Prelude.{◌≡◌, ◌-◌, ◌≤◌, length};
ghost use Rattle.text.specs.Names.{name_length, same_bytes};

use crate::bytes::{byte_after, is_name_byte};

const LONGEST_NAME: usize = 16;

// The length of the name at an offset: 0 where none stands there. It is a length and no option, as the definition gives it.
pub fn name_length(text: &[u8], at: usize) -> usize
    ensures { (result ≡ name_length text.now at) × (result ≤ length text.now - at) }
{
    for n in 0..LONGEST_NAME {
        if !is_name_byte(byte_after(text, at, n)) {
            return n;
        }
    }
    LONGEST_NAME
}

// The n bytes at an offset are the n bytes at another.
pub fn same_bytes(text: &[u8], at: usize, other: usize, n: usize) -> bool
    ensures { result ≡ same_bytes text.now at other n }
{
    (0..n).all(|i| byte_after(text, at, i) == byte_after(text, other, i))
}
