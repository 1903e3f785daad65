// What stands at a place of a path.
ghost use Rattle.std.specs.Prelude.{◌≡◌, true, ℕ, ◌<◌};
ghost use Rattle.base_bounds.specs.Bounds.{attribute_limit};
ghost use Rattle.node_schema.specs.Check.{well_formed};
ghost use Rattle.server_selection.specs.declared.locate.Located.TheVariants.{Here};
ghost use Rattle.server_selection.specs.Reach.{RowWithin};
ghost use Rattle.server_selection.specs.Items as items;

use super::asked::{Asked, asks_row, is_concrete};
use super::locate::Located;
use super::reach::{Use, allow, reach};
use base_bounds::CLUSTERS;
use node_schema::WORDS;

#[derive(Clone, Copy)]
pub enum Item {
    // The value of the attribute with this index.
    Value(usize),
    // The status that the path gets.
    Status(u8),
    Nothing,
}

// What a read makes of an attribute that it may use: nothing where the filters skip its cluster, else its value.
fn found_item<'a>(w: &'a [u64; WORDS], skips: &'a [bool; CLUSTERS], found: Located) -> Item
    requires { (i : ℕ) → found ≡ Here i → RowWithin w.now i }
    ensures { result ≡ items.found_item w.now skips.now found }
{
    match found {
        Located::Here(i) => {
            if skips[node_schema::attribute_cluster(w, i)] {
                Item::Nothing
            } else {
                Item::Value(i)
            }
        }
        Located::Refused(code) => Item::Status(code),
    }
}

// Attribute i as a read finds it.
fn read_item<'a>(
    w: &'a [u64; WORDS],
    level: &'a [u8; CLUSTERS],
    skips: &'a [bool; CLUSTERS],
    i: usize,
) -> Item
    requires { i < attribute_limit }
    ensures { result ≡ items.read_item w.now (record { level = level.entry.now }) skips.now i }
{
    found_item(w, skips, allow(Use::Read, w, level, i))
}

// Under a wildcard there are no statuses.
fn silenced(x: Item) -> Item
    ensures { result ≡ items.silent x }
{
    match x {
        Item::Value(i) => Item::Value(i),
        Item::Status(_code) => Item::Nothing,
        Item::Nothing => Item::Nothing,
    }
}

fn concrete_item<'a>(
    w: &'a [u64; WORDS],
    level: &'a [u8; CLUSTERS],
    skips: &'a [bool; CLUSTERS],
    p: Asked,
) -> Item
    ensures { result ≡ items.concrete_item w.now (record { level = level.entry.now }) skips.now p }
{
    found_item(
        w,
        skips,
        reach(Use::Read, w, level, p.endpoint, p.cluster, p.attribute),
    )
}

// How many places a path has.
pub fn span_of(w: &[u64; WORDS], p: Asked) -> usize
    ensures { result ≡ items.span w.now p }
{
    if is_concrete(p) {
        return 1;
    }
    node_schema::attribute_count(w)
}

// What stands at place i of a path.
pub fn item_at<'a>(
    w: &'a [u64; WORDS],
    level: &'a [u8; CLUSTERS],
    skips: &'a [bool; CLUSTERS],
    p: Asked,
    i: usize,
) -> Item
    requires { (well_formed w.now ≡ true) × (i < items.span w.now p) }
    ensures { result ≡ items.item_at w.now (record { level = level.entry.now }) skips.now p i }
{
    if is_concrete(p) {
        return concrete_item(w, level, skips, p);
    }
    // One look, and asked first: a wildcard has nothing of a cluster that the filters skip.
    if skips[node_schema::attribute_cluster(w, i)] {
        return Item::Nothing;
    }
    if !asks_row(w, p, i) {
        return Item::Nothing;
    }
    silenced(read_item(w, level, skips, i))
}
