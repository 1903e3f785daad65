// No code: the laws of this crate say that a part of a report that a server can have sent, taken by a cache, sets the same entries as in the protocol, and that there is always room for them.

#![tactic(auto)]
