// No code: the laws of this crate say that what one end writes, the reader at the other end reads as it was meant.

#![tactic(auto)]
