// The cache's requests written into a lent buffer. Every writer stores from `at` on and answers the place after what it stored;
// the rest of the buffer stays as it was.

#![tactic(auto)]

pub mod read; // read.rt: the read request and its filters
pub mod write; // write.rt: the write request
