// Lines that ask the cache what it holds.
ghost use Rattle.std.specs.Prelude.{◌≡◌, ◌≤◌};
ghost use Rattle.base_octets.specs.Store.{store};
ghost use Rattle.tlv_writer.specs.Element.{InPage};
ghost use Rattle.im_writer.specs.Envelope.{big_octets};
ghost use Rattle.script_answer.specs.Messages.{answer};
ghost use Rattle.script_cache.specs.Shown.{whole_shown, entry_shown, outcome_shown, unknown_shown, Shows, Says, Showable};
ghost use Rattle.script_cache.specs.Asks.{whole_at, entry_at, outcome_at, unknown_at, ask_shown};

use super::CacheMemory;
use cache_ask::{Abandoned, Ended, EntryHeld, Whole};
use cache_entries::PAGE_SIZE;
use im_envelope::MAX_MESSAGE;
use node_kinds::stored::same_bytes;
use script_answer::{AnswerLine, Fault};
use script_lines::path::{read_path, read_place};
use script_lines::{Scan, is_done};
use tlv_reader::Value;
use tlv_writer::{Tag, put_value};

const VERSION_SIZE: usize = 4;

const EXCHANGE_SIZE: usize = 5;

// The four low bytes of a number, the most significant first.
fn put_four(out: &mut [u8; MAX_MESSAGE], at: usize, n: u64)
    requires { at ≤ 1 }
    ensures { out.new ≡ store out.old at (big_octets 4 n) }
{
    out[at] = (n / 16_777_216 % 256) as u8;
    out[at + 1] = (n / 65_536 % 256) as u8;
    out[at + 2] = (n / 256 % 256) as u8;
    out[at + 3] = (n % 256) as u8;
}

// A version's four bytes.
fn put_version(out: &mut [u8; MAX_MESSAGE], v: u32)
    ensures { out.new ≡ store out.old 0 (big_octets 4 v) }
{
    put_four(out, 0, v as u64);
}

// An exchange's five bytes.
fn put_exchange(out: &mut [u8; MAX_MESSAGE], n: u64)
    ensures { out.new ≡ store out.old 0 (big_octets 5 n) }
{
    out[0] = (n / 4_294_967_296 % 256) as u8;
    put_four(out, 1, n);
}

fn said(number: u8, len: usize) -> AnswerLine
    ensures { result ≡ answer number len }
{
    AnswerLine { number, len }
}

fn say_whole(w: Whole, out: &mut [u8; MAX_MESSAGE]) -> AnswerLine
    ensures { Shows (whole_shown w) out.old out.new result }
{
    match w {
        Whole::Broken => said(cache_state::BROKEN, 0),
        Whole::No => said(cache_state::NOTHING, 0),
        Whole::At(v) => {
            put_version(out, v);
            said(cache_state::DONE, VERSION_SIZE)
        }
    }
}

// A value whose text, if it is one, lies in the page; null for one that does not, which no call of ours makes.
fn held(v: Value, page: &[u8]) -> Value
    ensures in_page { InPage page.now result }
    ensures same { InPage page.now v → result ≡ v }
{
    let Value::Text { start, len } = v else {
        return v;
    };
    if page.len() < start {
        return Value::Null;
    }
    if page.len() - start < len {
        return Value::Null;
    }
    v
}

// An entry: its value as an untagged element after the version.
fn say_entry(h: EntryHeld, page: &[u8; PAGE_SIZE], out: &mut [u8; MAX_MESSAGE]) -> AnswerLine
    requires { Showable page.now h }
    ensures { Shows (entry_shown page.now h) out.old out.new result }
{
    match h {
        EntryHeld::Broken => said(cache_state::BROKEN, 0),
        EntryHeld::Nothing => said(cache_state::NOTHING, 0),
        EntryHeld::Here(version, v) => {
            put_version(out, version);
            let shown = held(v, page);
            let len = put_value(out, VERSION_SIZE, Tag::Anonymous, shown, page);
            said(cache_state::DONE, len)
        }
    }
}

fn say_outcome(e: Ended, out: &mut [u8; MAX_MESSAGE]) -> AnswerLine
    ensures { Shows (outcome_shown e) out.old out.new result }
{
    match e {
        Ended::Broken => said(cache_state::BROKEN, 0),
        Ended::NoneYet => said(cache_state::NOTHING, 0),
        Ended::Open => {
            out[0] = 0;
            said(cache_state::NOTHING, 1)
        }
        Ended::LastPart => said(cache_state::DONE, 0),
        Ended::Status(code) => {
            out[0] = code;
            said(cache_state::DONE, 1)
        }
    }
}

fn say_unknown(a: Abandoned, out: &mut [u8; MAX_MESSAGE]) -> AnswerLine
    ensures { Shows (unknown_shown a) out.old out.new result }
{
    match a {
        Abandoned::Broken => said(cache_state::BROKEN, 0),
        Abandoned::Nothing => said(cache_state::NOTHING, 0),
        Abandoned::Exchange(n) => {
            put_exchange(out, n);
            said(cache_state::DONE, EXCHANGE_SIZE)
        }
    }
}

fn whole_line(
    line: &[u8],
    s: Scan,
    cache: CacheMemory,
    page: &[u8; PAGE_SIZE],
    out: &mut [u8; MAX_MESSAGE],
) -> Result<AnswerLine, Fault>
    ensures { Says (whole_at line.now s cache page.now) out.old out.new result }
{
    let a = read_place(line, s);
    if !is_done(a.next) {
        return Err(Fault::Unreadable);
    }
    let p = cache;
    let w = cache_ask::coherent(
        page,
        &p.clusters,
        &p.keys,
        &p.versions,
        &p.kinds,
        &p.words,
        &p.order,
        &p.lengths,
        &p.asked,
        a.endpoint,
        a.cluster,
    );
    Ok(say_whole(w, out))
}

fn entry_line(
    line: &[u8],
    s: Scan,
    cache: CacheMemory,
    page: &[u8; PAGE_SIZE],
    out: &mut [u8; MAX_MESSAGE],
) -> Result<AnswerLine, Fault>
    ensures { Says (entry_at line.now s cache page.now) out.old out.new result }
{
    let a = read_path(line, s);
    if !is_done(a.next) {
        return Err(Fault::Unreadable);
    }
    let p = cache;
    let h = cache_ask::entry(
        page,
        &p.clusters,
        &p.keys,
        &p.versions,
        &p.kinds,
        &p.words,
        &p.order,
        &p.lengths,
        &p.asked,
        a.endpoint,
        a.cluster,
        a.attribute,
    );
    Ok(say_entry(h, page, out))
}

fn outcome_line(
    s: Scan,
    cache: CacheMemory,
    page: &[u8; PAGE_SIZE],
    out: &mut [u8; MAX_MESSAGE],
) -> Result<AnswerLine, Fault>
    ensures { Says (outcome_at s cache page.now) out.old out.new result }
{
    if !is_done(s) {
        return Err(Fault::Unreadable);
    }
    let p = cache;
    let e = cache_ask::outcome(
        page,
        &p.clusters,
        &p.keys,
        &p.versions,
        &p.kinds,
        &p.words,
        &p.order,
        &p.lengths,
        &p.asked,
    );
    Ok(say_outcome(e, out))
}

fn unknown_line(
    s: Scan,
    cache: CacheMemory,
    page: &[u8; PAGE_SIZE],
    out: &mut [u8; MAX_MESSAGE],
) -> Result<AnswerLine, Fault>
    ensures { Says (unknown_at s cache page.now) out.old out.new result }
{
    if !is_done(s) {
        return Err(Fault::Unreadable);
    }
    let p = cache;
    let a = cache_ask::unknown(
        page,
        &p.clusters,
        &p.keys,
        &p.versions,
        &p.kinds,
        &p.words,
        &p.order,
        &p.lengths,
        &p.asked,
    );
    Ok(say_unknown(a, out))
}

// A line that is none of the others, if it is one at all.
pub fn ask_line(
    name: &[u8],
    line: &[u8],
    s: Scan,
    cache: CacheMemory,
    page: &[u8; PAGE_SIZE],
    out: &mut [u8; MAX_MESSAGE],
) -> Result<AnswerLine, Fault>
    ensures { Says (ask_shown name.now line.now s cache page.now) out.old out.new result }
{
    if same_bytes(name, b"whole") {
        return whole_line(line, s, cache, page, out);
    }
    if same_bytes(name, b"entry") {
        return entry_line(line, s, cache, page, out);
    }
    if same_bytes(name, b"outcome") {
        return outcome_line(s, cache, page, out);
    }
    if same_bytes(name, b"unknown") {
        return unknown_line(s, cache, page, out);
    }
    Err(Fault::Unreadable)
}
