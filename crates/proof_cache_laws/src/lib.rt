// Theorems on the cache, and no code: a valid cache stays valid and never answers 2, and its words stay a cache's.

#![tactic(auto)]
