// The row of an exchange, as words that are lent: the paths of the request that is being answered, then a word for each cluster, to which its filters were
// judged, then how the exchange stands.
ghost use Rattle.std.specs.Prelude.{◌≡◌, ◌≤◌, ◌<◌, length};
ghost use Rattle.base_bounds.specs.Bounds.{path_limit};
ghost use Rattle.base_octets.specs.Store.{store};
ghost use Rattle.server_selection.specs.Request.{asked_at};

use super::asked::{Asked, asked_for};
use base_bounds::CLUSTERS;
use im_requests::{PATH_SIZE, PATH_WORDS, Target};

// The filters' words are behind those of the paths.
pub const FILTERS_AT: usize = PATH_WORDS;

// How the exchange stands is behind the request.
pub const STANDING_AT: usize = FILTERS_AT + CLUSTERS;

pub const ROW_WORDS: usize = STANDING_AT + 10;

// Path number k.
pub fn asked_at(row: &[u64; ROW_WORDS], k: usize) -> Asked
    requires { k < path_limit }
    ensures { result ≡ asked_at row.now k }
{
    let at = k * PATH_SIZE;
    asked_for(Target {
        endpoint: row[at],
        cluster: row[at + 1],
        attribute: row[at + 2],
    })
}

// The words of a request's paths.
pub fn put_paths(row: &mut [u64], paths: &[u64])
    requires { length paths.now ≤ length row.old }
    ensures { row.new ≡ store row.old 0 paths.now }
{
    // As `put_bytes`: `copy_from_slice` would ask a board for `memmove`.
    for k in 0..paths.len() {
        row[k] = paths[k];
    }
}
