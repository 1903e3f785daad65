// No code: the laws of this crate say that what a cache begins, the server reads as it was meant, and that what the server writes, the cache takes as it was meant.

#![tactic(auto)]
