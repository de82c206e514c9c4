// Document 01's station examples: the starred ones, E1 to E9, and E10. One list in specs/, and one claim about the whole list in proofs/. No code stands here.
#![tactic(auto)]
