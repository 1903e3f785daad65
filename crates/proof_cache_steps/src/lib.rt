// No code: the laws of this crate say that every call of a cache takes a step of the protocol, or none.

#![tactic(auto)]
