// No code: the law of this crate says that a read of a server that nobody else touches is answered with its parts.

#![tactic(auto)]
