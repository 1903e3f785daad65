// No code: a run of both ends in bytes, computed, in which the promises say something.

#![tactic(auto)]
