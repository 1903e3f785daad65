// No code: the laws of this crate say that each part of a report of everything is, byte for byte, a part that the protocol makes.

#![tactic(auto)]
