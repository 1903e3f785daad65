// The limits of the rules (docs/RULES.md), each named once in the code. The definitions have the same (specs/Bounds.antt), each with its rule.

#![tactic(auto)]

ghost use Rattle.std.specs.Prelude.{◌≡◌};
ghost use Rattle.base_bounds.specs.Bounds.{limits};

// A server's plan.
pub const ENDPOINTS: usize = 8;

pub const CLUSTERS: usize = 32;

pub const ATTRIBUTES: usize = 256;

pub const ACCESS_ENTRIES: usize = 16;

pub const TEXT_MAX: usize = 200;

pub const VERSIONS: u64 = 4_294_967_296;

// A message.
pub const MAX_PAYLOAD: usize = 1024;

pub const MAX_DEPTH: usize = 10;

// A request.
pub const MAX_PATHS: usize = 16;

pub const MAX_FILTERS: usize = 32;

pub const MAX_WRITES: usize = 16;

#[derive(Clone, Copy)]
pub struct Limits {
    pub endpoints: usize,
    pub clusters: usize,
    pub attributes: usize,
    pub access_entries: usize,
    pub text_max: usize,
    pub versions: u64,
    pub max_payload: usize,
    pub max_depth: usize,
    pub max_paths: usize,
    pub max_filters: usize,
    pub max_writes: usize,
}

// All of them: the contract holds each to its definition.
pub fn all() -> Limits
    ensures { result ≡ limits }
{
    Limits {
        endpoints: ENDPOINTS,
        clusters: CLUSTERS,
        attributes: ATTRIBUTES,
        access_entries: ACCESS_ENTRIES,
        text_max: TEXT_MAX,
        versions: VERSIONS,
        max_payload: MAX_PAYLOAD,
        max_depth: MAX_DEPTH,
        max_paths: MAX_PATHS,
        max_filters: MAX_FILTERS,
        max_writes: MAX_WRITES,
    }
}
