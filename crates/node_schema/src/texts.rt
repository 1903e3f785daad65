// The schema's texts: each has its place in the page of edits by its rank.
ghost use Rattle.std.specs.Prelude.{◌≡◌, ◌*◌};
ghost use Rattle.node_schema.specs.Layout.{text_size};
ghost use Rattle.node_schema.specs.Check.{count_of_texts};

use super::{TEXT_SIZE, WORDS};

// How many attributes are texts.
pub fn text_count(w: &[u64; WORDS]) -> usize
    ensures { result ≡ count_of_texts w.now }
{
    let n = super::attribute_count(w);
    let mut texts = 0;
    for i in 0..n {
        if super::is_text(w, i) {
            texts += 1;
        }
    }
    texts
}

// How many bytes the page of edits has.
pub fn edits_size(w: &[u64; WORDS]) -> usize
    ensures { result ≡ text_size * count_of_texts w.now }
{
    TEXT_SIZE * text_count(w)
}
