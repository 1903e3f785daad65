// The two pages of texts: a text is shown from the page of defaults (RULES 2.19: the factory page) until it is changed, then from the page of edits
// (the edited page), where it has a place by its rank among the schema's texts.
ghost use Rattle.std.specs.Prelude.{◌≡◌, ◌+◌, ◌-◌, ◌^◌, ◌≤◌, ◌<◌, length, take, drop, replicate};
ghost use Rattle.base_octets.specs.Store.{store};
ghost use Rattle.node_schema.specs.Layout.{text_size};
ghost use Rattle.node_plan.specs.Pages.{place, padded, shown_text};

use base_octets::put_bytes;
use node_schema::TEXT_SIZE;

// Where the text of this rank starts in the page of edits.
pub fn place_of(rank: usize) -> usize
    requires { place rank < 2 ^ 64 }
    ensures { result ≡ place rank }
{
    TEXT_SIZE * rank
}

// The len bytes of a page from start on, as far as the page has them.
pub fn part(page: &[u8], start: usize, len: usize) -> &[u8]
    ensures { result.now ≡ take len (drop start page.now) }
{
    if page.len() <= start {
        return &page[0..0];
    }
    if page.len() - start < len {
        return &page[start..page.len()];
    }
    &page[start..start + len]
}

// The shown text, by its mark: that very part of one page or the other.
pub fn shown<'a>(
    defaults: &'a [u8],
    edits: &'a [u8],
    start: usize,
    len: usize,
    rank: usize,
    mark: u16,
) -> &'a [u8]
    ensures { result.now ≡ shown_text defaults.now edits.now start len rank mark }
{
    if mark == 0 {
        return part(defaults, start, len);
    }
    let n = (mark - 1) as usize;
    if edits.len() / TEXT_SIZE < rank {
        return part(edits, edits.len(), n);
    }
    part(edits, place_of(rank), n)
}

// Zeros from one place up to another.
fn clear(b: &mut [u8], from: usize, to: usize)
    requires { (from ≤ to) × (to ≤ length b.old) }
    ensures { b.new ≡ store b.old from (replicate (to - from) 0) }
{
    b[from..to].fill(0);
}

// Stores a text in its place: its bytes, and zeros behind them, so that nothing is left of a longer one; the rest of the page stays as it was.
pub fn store_text(edits: &mut [u8], rank: usize, text: &[u8])
    requires { (length text.now ≤ text_size) × (place rank + text_size ≤ length edits.old) }
    ensures { edits.new ≡ store edits.old (place rank) (padded text.now) }
{
    let at = place_of(rank);
    let end = put_bytes(edits, at, text);
    clear(edits, end, at + TEXT_SIZE);
}
