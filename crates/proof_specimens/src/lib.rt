// The specimens S1 to S12 of RULES 8, a read of two parts whose filter agrees at one of them only, and the limits in figures, over the definitions of the server. There is no
// code here: specs/Specimens.antt says them, proofs/Shown.antt shows them.

#![tactic(auto)]
