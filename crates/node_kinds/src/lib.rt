// Attribute kinds with their limits, and values: whether a new value is allowed, and how a value is stored.

#![tactic(auto)]

pub mod float;
pub mod limits;
pub mod stored;

// A float's lowest, highest and first value, which travel together.
#[derive(Clone, Copy)]
pub struct Range {
    pub low: f32,
    pub high: f32,
    pub first: f32,
}

// What an attribute may hold: one of five kinds, each with its own limits, ends included.
#[derive(Clone, Copy)]
pub enum Kind {
    Boolean,
    Unsigned { low: u64, high: u64 },
    Signed { low: i64, high: i64 },
    Float(Range),
    Text,
}

// What a new value gets.
#[derive(Clone, Copy)]
pub enum Verdict {
    Success,
    ConstraintError,
    InvalidDataType,
}
