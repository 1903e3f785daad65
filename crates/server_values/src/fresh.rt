// What a fresh server holds.
ghost use Rattle.std.specs.Prelude.{◌≡◌, true, ◌<◌};
ghost use Rattle.base_bounds.specs.Bounds.{attribute_limit};
ghost use Rattle.node_schema.specs.Rows.{attribute_row};
ghost use Rattle.node_schema.specs.Check.{well_formed};
ghost use Rattle.server_values.specs.Values.{values_of};
ghost use Rattle.server_values.specs.Fresh.{start_word, first_words, first_versions, fresh_values};

use base_bounds::{ATTRIBUTES, CLUSTERS};
use node_schema::{TEXTS, WORDS};

// What an attribute starts with; a text's word is 0.
fn start_word(w: &[u64; WORDS], i: usize) -> u64
    requires { i < attribute_limit }
    ensures { result ≡ start_word (attribute_row w.now i) }
{
    if node_schema::is_text(w, i) {
        return 0;
    }
    node_schema::first_value(w, i)
}

fn first_words(w: &[u64; WORDS]) -> [u64; ATTRIBUTES]
    ensures { result ≡ first_words w.now }
{
    let n = node_schema::attribute_count(w);
    let mut words = [0u64; ATTRIBUTES];
    for i in 0..n {
        words[i] = start_word(w, i);
    }
    words
}

fn first_versions(w: &[u64; WORDS]) -> [u32; CLUSTERS]
    requires { well_formed w.now ≡ true }
    ensures { result ≡ first_versions w.now }
{
    let n = node_schema::cluster_count(w);
    let mut versions = [0u32; CLUSTERS];
    for i in 0..n {
        versions[i] = node_schema::cluster_version(w, i) as u32;
    }
    versions
}

// A fresh server's values, whatever stood there.
pub fn fresh(
    w: &[u64; WORDS],
    words: &mut [u64; ATTRIBUTES],
    nulls: &mut [bool; ATTRIBUTES],
    texts: &mut [u16; TEXTS],
    versions: &mut [u32; CLUSTERS],
)
    requires { well_formed w.now ≡ true }
    ensures { values_of words.new nulls.new texts.new versions.new ≡ fresh_values w.now }
{
    *words = first_words(w);
    *nulls = [false; ATTRIBUTES];
    *texts = [0u16; TEXTS];
    *versions = first_versions(w);
}
