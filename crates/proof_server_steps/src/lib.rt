// No code: the laws of this crate say that every call of the server takes a step of the protocol, or none.

#![tactic(auto)]
