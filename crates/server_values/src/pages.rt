// Whether the texts that are shown from a page are valid UTF-8: at once where all of it is ASCII, else the page as a whole, and then where its texts are
// cut, else each text by itself.
ghost use Rattle.std.specs.Prelude.{◌≡◌, true, ◌&&◌, ◌<◌, ◌≤◌, leb, length, take, drop};
ghost use Rattle.base_utf8.specs.WellFormed.{well_formed};
ghost use Rattle.node_schema.specs.Layout.{text_limit};
ghost use Rattle.node_schema.specs.Check.{every};
ghost use Rattle.server_values.specs.Quick.{some_text, text_room, plain_page, long_texts, whole_limit, start_in, length_in, formed_at};

use node_plan::pages::{part, place_of};
use node_schema::{TEXT_SIZE, TEXTS, WORDS};

// What the texts of a schema take at most: a longer page is not looked at as a whole.
const PAGE: usize = TEXTS * TEXT_SIZE;

// The mark of a text of half a place, and what two places take.
const LONG: u16 = 101;

const TWO_PLACES: usize = 400;

// Whether one of the first n texts is shown from the page of defaults (factory), or from the page of edits.
fn some_text(texts: &[u16; TEXTS], n: usize, factory: bool) -> bool
    requires { n ≤ text_limit }
    ensures { result ≡ some_text texts.now factory n }
{
    let mut found = false;
    for i in 0..n {
        found = found | ((texts[i] == 0) == factory);
    }
    found
}

// How many texts a page of edits of this size has room for.
pub fn text_room(size: usize) -> usize
    ensures { result ≡ text_room size }
{
    let n = size / TEXT_SIZE;
    if n < TEXTS { n } else { TEXTS }
}

// Whether no text has to be looked at in this page: none is shown from it, or all of it is ASCII.
fn is_plain<'a>(page: &'a [u8], texts: &'a [u16; TEXTS], n: usize, factory: bool) -> bool
    requires { n ≤ text_limit }
    ensures { result ≡ plain_page page.now texts.now factory n }
{
    if !some_text(texts, n, factory) {
        return true;
    }
    if PAGE < page.len() {
        return false;
    }
    base_utf8::ascii(page)
}

// Whether a page is valid UTF-8 as a whole. It is not asked of one that is longer than the limit.
fn whole_page(page: &[u8], limit: usize) -> bool
    ensures { result ≡ (leb (length page.now) limit && well_formed page.now) }
{
    if limit < page.len() {
        return false;
    }
    base_utf8::valid(page)
}

// How many of the first n texts are changed, and longer than half their place.
fn long_texts(texts: &[u16; TEXTS], n: usize) -> usize
    requires { n ≤ text_limit }
    ensures value { result ≡ long_texts texts.now n }
    ensures small { result ≤ n }
{
    let mut long: usize = 0;
    for i in 0..n {
        if LONG < texts[i] {
            long += 1;
        }
    }
    long
}

// Up to which length a page is judged as a whole. Where fewer than half of its texts are long, most of the page of edits is not shown: then each text is judged
// by itself.
fn whole_limit(texts: &[u16; TEXTS], n: usize, factory: bool) -> usize
    requires { n ≤ text_limit }
    ensures { result ≡ whole_limit texts.now factory n }
{
    if factory {
        return PAGE;
    }
    TWO_PLACES * long_texts(texts, n)
}

// Where the text of a rank begins in the page of defaults (factory), or in that of edits.
fn start_in(w: &[u64; WORDS], rank: usize, factory: bool) -> usize
    requires { rank < text_limit }
    ensures { result ≡ start_in w.now factory rank }
{
    if factory {
        return node_schema::factory_start(w, rank);
    }
    place_of(rank)
}

// How many bytes it has there, by its mark.
fn length_in(w: &[u64; WORDS], rank: usize, mark: u16, factory: bool) -> usize
    ensures { result ≡ length_in w.now mark factory rank }
{
    if factory {
        return node_schema::factory_length(w, rank);
    }
    if mark == 0 { 0 } else { (mark - 1) as usize }
}

// Whether a part of a page is valid UTF-8: in a page that is valid as a whole, if it is cut at boundaries.
fn is_formed(page: &[u8], whole: bool, start: usize, len: usize) -> bool
    requires { whole ≡ true → well_formed page.now ≡ true }
    ensures { result ≡ well_formed (take len (drop start page.now)) }
{
    if whole {
        return base_utf8::is_cut_well(page, start, len);
    }
    base_utf8::valid(part(page, start, len))
}

// Every text among the first n that is shown from this page.
fn all_formed<'a>(
    w: &'a [u64; WORDS],
    page: &'a [u8],
    texts: &'a [u16; TEXTS],
    n: usize,
    factory: bool,
    whole: bool,
) -> bool
    requires { (n ≤ text_limit) × (whole ≡ true → well_formed page.now ≡ true) }
    ensures { result ≡ every (formed_at w.now page.now texts.now factory) n }
{
    for i in 0..n {
        let mark = texts[i];
        if (mark == 0) == factory {
            let start = start_in(w, i, factory);
            if !is_formed(page, whole, start, length_in(w, i, mark, factory)) {
                return false;
            }
        }
    }
    true
}

// The same, at once where all of the page is ASCII.
pub fn is_fit<'a>(
    w: &'a [u64; WORDS],
    page: &'a [u8],
    texts: &'a [u16; TEXTS],
    n: usize,
    factory: bool,
) -> bool
    requires { n ≤ text_limit }
    ensures { result ≡ every (formed_at w.now page.now texts.now factory) n }
{
    if is_plain(page, texts, n, factory) {
        return true;
    }
    let whole = whole_page(page, whole_limit(texts, n, factory));
    all_formed(w, page, texts, n, factory, whole)
}
