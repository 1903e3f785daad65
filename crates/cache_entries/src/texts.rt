// The places of texts in the page: which are in use, and where a text goes.
ghost use Rattle.std.specs.Prelude.{◌≡◌, true, not, ◌&&◌, ℕ, ◌≤◌, ◌<◌, eqb, ltb, length, get_or, set};
ghost use Rattle.node_schema.specs.Search.{first};
ghost use Rattle.tlv_reader.specs.Octet.{pick};
ghost use Rattle.cache_entries.specs.Limits.{max_entries, text_places, text_kind};
ghost use Rattle.cache_entries.specs.Texts.{is_text, place_used, or_first, place_given, Marked, Own};
ghost use Rattle.cache_entries.specs.Set.{count_with};

use super::{ENTRIES, TEXT, TEXT_PLACES};

// Marks with 1 each place that one of the first n entries has its text at.
pub fn mark_places(
    kinds: &[u8; ENTRIES],
    words: &[u64; ENTRIES],
    n: usize,
    marks: &mut [u8; TEXT_PLACES],
)
    requires { n ≤ max_entries }
    ensures { Marked kinds.now words.now n marks.new }
{
    *marks = [0u8; TEXT_PLACES];
    for i in 0..n {
        if kinds[i] == TEXT && words[i] < TEXT_PLACES as u64 {
            let p = words[i] as usize;
            marks[p] = 1;
        }
    }
}

// The first place that is free, 0 where none is.
fn free_place(marks: &[u8; TEXT_PLACES]) -> usize
    ensures { result ≡ or_first (first (λ p. eqb (get_or marks.now p 0) 0) text_places 0) }
{
    marks.iter().position(|mark| *mark == 0).unwrap_or(0)
}

// Whether entry i is one of the first n, and a text.
fn is_text(kinds: &[u8; ENTRIES], n: usize, i: usize) -> bool
    requires { i < max_entries }
    ensures { result ≡ (ltb i n && is_text kinds.now i) }
{
    if i < n { kinds[i] == TEXT } else { false }
}

// The place of entry i, where it becomes a text: its own, or the first that is free; 0 where it becomes none. The marks are then those of the entries with it.
pub fn move_text(
    kinds: &[u8; ENTRIES],
    words: &[u64; ENTRIES],
    n: usize,
    i: usize,
    text: bool,
    marks: &mut [u8; TEXT_PLACES],
) -> usize
    requires { (n ≤ max_entries) × ((i ≤ n) × ((i < max_entries) × ((length kinds.now ≡ max_entries) × ((length words.now ≡ max_entries) × (Marked kinds.now words.now n marks.old × Own kinds.now words.now n i (place_given kinds.now words.now n i)))))) }
    ensures { (result ≡ pick text (place_given kinds.now words.now n i) 0) × ((kind word : ℕ) → eqb kind text_kind ≡ text → (text ≡ true → word ≡ result) → Marked (set kinds.now i kind) (set words.now i word) (count_with n i) marks.new) }
{
    if is_text(kinds, n, i) {
        let own = words[i] as usize;
        if text {
            return own;
        }
        marks[own] = 0;
        return 0;
    }
    if !text {
        return 0;
    }
    let p = free_place(marks);
    marks[p] = 1;
    p
}
