// No code: the laws of this crate say that what the cache calls whole is what the server held, and that a read whose messages arrive ends so, over both ends in bytes.

#![tactic(auto)]
