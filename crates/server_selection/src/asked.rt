// What a path of a read asks for: each part a number, or any.
ghost use Rattle.std.specs.Prelude.{◌≡◌, true, ◌<◌, ◌^◌};
ghost use Rattle.node_schema.specs.Rows.{count_of_attributes};
ghost use Rattle.node_schema.specs.Rules.{path, path_at};
ghost use Rattle.node_schema.specs.Check.{well_formed};
ghost use Rattle.server_selection.specs.Asked.{named, asked_for, part_is, asks_for, concrete, unbound};

use im_requests::Target;
use node_schema::WORDS;

#[derive(Clone, Copy)]
pub struct Asked {
    pub any_endpoint: bool,
    pub endpoint: u16,
    pub any_cluster: bool,
    pub cluster: u32,
    pub any_attribute: bool,
    pub attribute: u32,
}

fn named16(x: u64) -> u16
    ensures { result ≡ named (2 ^ 16) x }
{
    if x < 65_536 { x as u16 } else { 0 }
}

fn named32(x: u64) -> u32
    ensures { result ≡ named (2 ^ 32) x }
{
    if x < 4_294_967_296 { x as u32 } else { 0 }
}

// A path as it was read; a part that is no number of its width is any.
pub fn asked_for(t: Target) -> Asked
    ensures { result ≡ asked_for t }
{
    Asked {
        any_endpoint: 65_536 <= t.endpoint,
        endpoint: named16(t.endpoint),
        any_cluster: 4_294_967_296 <= t.cluster,
        cluster: named32(t.cluster),
        any_attribute: 4_294_967_296 <= t.attribute,
        attribute: named32(t.attribute),
    }
}

fn part_is(any: bool, id: u64, x: u64) -> bool
    ensures { result ≡ part_is any id x }
{
    if any { true } else { id == x }
}

fn asks(p: Asked, endpoint: u64, cluster: u64, attribute: u64) -> bool
    ensures { result ≡ asks_for p (path endpoint cluster attribute) }
{
    if !part_is(p.any_endpoint, p.endpoint as u64, endpoint) {
        return false;
    }
    if !part_is(p.any_cluster, p.cluster as u64, cluster) {
        return false;
    }
    part_is(p.any_attribute, p.attribute as u64, attribute)
}

// No part is named.
fn asks_all(p: Asked) -> bool
    ensures { result ≡ unbound p }
{
    p.any_endpoint & p.any_cluster & p.any_attribute
}

// Whether the path asks for attribute i. A read of everything, whose path asks for every one, looks at no row for that.
pub fn asks_row(w: &[u64; WORDS], p: Asked, i: usize) -> bool
    requires { (well_formed w.now ≡ true) × (i < count_of_attributes w.now) }
    ensures { result ≡ asks_for p (path_at w.now i) }
{
    if asks_all(p) {
        return true;
    }
    let k = node_schema::attribute_cluster(w, i);
    asks(
        p,
        node_schema::cluster_endpoint(w, k),
        node_schema::cluster_id(w, k),
        node_schema::attribute_id(w, i),
    )
}

// Every part is named.
pub fn is_concrete(p: Asked) -> bool
    ensures { result ≡ concrete p }
{
    if p.any_endpoint {
        return false;
    }
    if p.any_cluster {
        return false;
    }
    !p.any_attribute
}
