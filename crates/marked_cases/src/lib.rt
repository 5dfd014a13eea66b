// The cases that 01 marks to be proved together: specs/Marked.antt is the list, proofs/Marked.antt the theorem.
#![tactic(auto)]
