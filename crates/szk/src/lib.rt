// The page manager's calls as exported functions, one for each, for programs in other languages to link; and the difference of two readings of a
// counter.
//
// A caller lends six slices, and for a report a buffer as the seventh, each a pointer and a length: the machine record's numbers, as `layout` has
// them, the marks, the content words, the bitmap words and the owners, and three numbers for the answer, which are the refusal and two more. Any
// contents and any lengths are taken. A record or an answer that is too short is the wrong shape, refusal 1: nothing else is done then, and an
// answer of one or two numbers gets the refusal in its first.
#![tactic(auto)]

mod exchange;
mod exports;
mod layout;
