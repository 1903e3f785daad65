// No code: the laws of this crate say that only one outcome fits the contract of each call of a user.

#![tactic(auto)]
