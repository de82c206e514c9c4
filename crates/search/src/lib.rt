// "The lowest number such that", "each", "some", "how many" and "the longest row": definitions in specs/ and their laws in proofs/, over any
// test and any width. Names, free frames, candidates, bits and text are all searched by these. No code stands here: each crate above scans in
// its own way and proves its scan against these definitions.
#![tactic(auto)]
