// The messages that a cache sends: its requests, and a success for a part of a report. Each is written from the start of the buffer on.

#![tactic(auto)]

pub mod read; // read.rt: a read with a filter for each coherent cluster
pub mod other; // other.rt: a write, and a success
