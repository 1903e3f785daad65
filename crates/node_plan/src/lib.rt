// The node: the schema's attributes with their kinds, the whole check of a schema, and the two pages of texts.

#![tactic(auto)]

ghost use Rattle.std.specs.Prelude.{◌≡◌};
ghost use Rattle.node_plan.specs.Check.{checked};

use node_kinds::Kind;
use node_schema::WORDS;

pub mod decode;
pub mod first;
pub mod held;
pub mod pages;

// An attribute of the schema, decoded from its words.
#[derive(Clone, Copy)]
pub struct Attribute {
    // The place of its cluster among the cluster rows.
    pub cluster: usize,
    pub id: u64,
    pub kind: Kind,
    pub nullable: bool,
    // The privilege that reading (writing) needs, 0 where the attribute is not readable (not writable).
    pub read: u64,
    pub write: u64,
    // The first value as one word: of a text the length of its factory text.
    pub first: u64,
    // Where the factory text starts in the page of defaults, and its length; 0 for every other kind.
    pub text: usize,
    pub len: usize,
}

// The kind codes of the schema, up to node_schema::TEXT; 0 is Boolean, and so is every other code, which the check refuses.
pub const UNSIGNED: u64 = 1;

pub const SIGNED: u64 = 2;

pub const FLOAT: u64 = 3;

// The answers of the check (RULES 6.1).
pub const DONE: u64 = 0;

pub const SCHEMA_REFUSED: u64 = 11;

// 0 exactly if the words and the page of defaults are a schema by the rules (RULES 2), else 11.
pub fn check(w: &[u64; WORDS], defaults: &[u8]) -> u64
    ensures { result ≡ checked w.now defaults.now }
{
    if !node_schema::check::well_formed(w) {
        return SCHEMA_REFUSED;
    }
    if !first::numbers_ok(w) {
        return SCHEMA_REFUSED;
    }
    if !first::texts_ok(w, defaults) {
        return SCHEMA_REFUSED;
    }
    DONE
}
