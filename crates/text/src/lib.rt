// Texts, read and written: bytes, names and numbers of a text, and labels and decimal numbers in a lent buffer. What reads a text is a function on
// the slice and an offset, passed as two: document 01 names this form.
#![tactic(auto)]

pub mod bytes;
pub mod names;
pub mod numbers;
pub mod writing;

use answer::Refused;

// What reading a part of a text gives: a value and the offset after it, or a refusal at its place.
pub type Scanned<T> = Result<(T, usize), Refused>;
