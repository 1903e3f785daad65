// No code: this crate says how what the two ends hold and send stands for the terms of the protocol. The laws that each call keeps it so stand in the crates above.

#![tactic(auto)]
