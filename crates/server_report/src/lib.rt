// One part of a report: the next blocks of a read, as many as its payload has room for (RULES 5.1 to 5.12).

#![tactic(auto)]

pub mod block; // block.rt: one block offered to the buffer
pub mod part; // part.rt: blocks filled in, and the frame around them

// Where a read goes on: in which phase, with which path of the request and which place of that path, and how much of this place was sent.
#[derive(Clone, Copy)]
pub struct ReadPlace {
    pub phase: usize,
    pub path: usize,
    pub index: usize,
    pub sent: usize,
}

// The phase in which attributes are reported; there is no other.
pub const ATTRIBUTE_PHASE: usize = 0;

// Where the blocks end, where the read goes on, and whether a further block would follow.
#[derive(Clone, Copy)]
pub struct Filled {
    pub end: usize,
    pub place: ReadPlace,
    pub more: bool,
}

// What of a payload the frame takes, and what is left for blocks.
pub const FRAME: usize = 10;

pub const BLOCK_ROOM: usize = base_bounds::MAX_PAYLOAD - FRAME;
