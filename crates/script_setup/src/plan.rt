// The schema of all lines so far.
ghost use Rattle.std.specs.Prelude.{◌≡◌, ◌≤◌, ◌<◌, ◌+◌, length, take};
ghost use Rattle.base_bounds.specs.Bounds.{cluster_limit, attribute_limit};
ghost use Rattle.script_setup.specs.Schema.{row_of, factory_set, key_set, rank_past, keys_set, schema_of};

use super::{PATHS, SETUP};
use base_bounds::{ATTRIBUTES, CLUSTERS};
use node_schema::find::find_cluster;
use node_schema::{FACTORY, FIRST, HALF, HIGH, KEY, LOW, TEXTS, WORDS, is_text};

// Where the cluster of a path stands among the rows; past the last row where it has none, so that the schema is refused.
fn row_of(words: &[u64; WORDS], path: u64) -> u64
    ensures value { result ≡ row_of words.now path }
    ensures upper_bound { result ≤ cluster_limit }
{
    let Some(i) = find_cluster(words, (path / HALF % 65_536) as u16, (path % HALF) as u32) else {
        return CLUSTERS as u64;
    };
    i.min(CLUSTERS) as u64
}

// The factory text of a rank, whose start and length its row has as lowest and highest. One past the limit is not kept: the schema is then refused.
fn set_factory(words: &mut [u64; WORDS], i: usize, rank: usize)
    requires { i < attribute_limit }
    ensures { words.new ≡ factory_set words.old i rank }
{
    if rank < TEXTS {
        words[FACTORY + rank] = words[LOW + i] % HALF * HALF + words[HIGH + i] % HALF;
    }
}

// The key of an attribute, and of a text its rank and factory text; answers how many texts there are so far.
fn set_key(words: &mut [u64; WORDS], i: usize, path: u64, rank: u64) -> u64
    requires { (i < attribute_limit) × (rank ≤ i) }
    ensures value { result ≡ rank_past words.old i path rank }
    ensures words_after { words.new ≡ key_set words.old i path rank }
    ensures upper_bound { result ≤ i + 1 }
{
    let row = row_of(words, path);
    let id = words[KEY + i] % HALF;
    words[KEY + i] = row * HALF + id;
    if is_text(words, i) {
        words[FIRST + i] = rank;
        set_factory(words, i, rank as usize);
        return rank + 1;
    }
    rank
}

// The words as they were set up.
fn set_words(setup: &[u64; SETUP], words: &mut [u64; WORDS])
    ensures { words.new ≡ take (length words.old) setup.now }
{
    words.copy_from_slice(&setup[..WORDS]);
}

// All clusters are known now: the keys of all attributes, and the ranks and factory texts of all texts.
fn set_keys(setup: &[u64; SETUP], words: &mut [u64; WORDS])
    ensures { words.new ≡ keys_set setup.now words.old }
{
    let n = node_schema::attribute_count(words).min(ATTRIBUTES);
    let mut rank = 0;
    for i in 0..n {
        rank = set_key(words, i, setup[PATHS + i], rank);
    }
}

pub fn set_schema(setup: &[u64; SETUP], words: &mut [u64; WORDS])
    ensures { words.new ≡ schema_of setup.now }
{
    set_words(setup, words);
    set_keys(setup, words);
}
