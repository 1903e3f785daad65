// The setup line of an attribute: its row of the schema's words, and its factory text.
ghost use Rattle.std.specs.Prelude.{◌≡◌, ◌≤◌, ◌<◌, ◌-◌, ◌^◌, length, IfSome};
ghost use Rattle.base_bounds.specs.Bounds.{attribute_limit};
ghost use Rattle.script_lines.specs.Numbers.{number_at, signed_at, float_at, flag_at};
ghost use Rattle.script_lines.specs.Bytes.{rest_at, rest_kept};
ghost use Rattle.script_setup.specs.Attributes.{first_of, limits_by, text_of, limits_at, limits_kept, privilege_of, row_at, row_kept, attributes_counted, next_row, row_set, text_placed, text_stored, setup_added, texts_added, attribute_read, attribute_setup, attribute_texts};

use super::{PAGE, PATHS, SETUP, count_up};
use base_bounds::ATTRIBUTES;
use node_kinds::stored::same_bytes;
use node_plan::{FLOAT, SIGNED, UNSIGNED};
use node_schema::{
    ATTRIBUTE_COUNT_WORD, FIRST, HALF, HIGH, KEY, LOW, NULLABLE_PART, READ_PART, TEXT, TEXT_SIZE,
    TRAITS, WRITE_PART,
};
use script_lines::hex::{SPELLED, rest};
use script_lines::number::{read_flag, read_float, read_marked, read_number, read_signed};
use script_lines::path::read_path;
use script_lines::sizes::clip;
use script_lines::{Scan, is_done, next_word};

// A kind with its limits and first value, as words of the schema; of a text its length as the highest, until its rank is known.
#[derive(Clone, Copy)]
struct KindWords {
    code: u64,
    low: u64,
    high: u64,
    first: u64,
    ok: bool,
}

const BOOLEAN: u64 = 0;

fn boolean(line: &[u8], s: Scan) -> KindWords
    ensures value { result ≡ first_of (flag_at line.now s) }
    ensures code_bound { result.code < 256 }
{
    let first = read_flag(line, s);
    KindWords {
        code: BOOLEAN,
        low: 0,
        high: 0,
        first: first.value,
        ok: is_done(first.next),
    }
}

fn unsigned(line: &[u8], s: Scan) -> KindWords
    ensures value { result ≡ limits_by 1 (λ t. number_at line.now t (2 ^ 64 - 1)) s }
    ensures code_bound { result.code < 256 }
{
    let low = read_number(line, s, u64::MAX);
    let high = read_number(line, low.next, u64::MAX);
    let first = read_number(line, high.next, u64::MAX);
    KindWords {
        code: UNSIGNED,
        low: low.value,
        high: high.value,
        first: first.value,
        ok: is_done(first.next),
    }
}

fn integer(line: &[u8], s: Scan) -> KindWords
    ensures value { result ≡ limits_by 2 (signed_at line.now) s }
    ensures code_bound { result.code < 256 }
{
    let low = read_signed(line, s);
    let high = read_signed(line, low.next);
    let first = read_signed(line, high.next);
    KindWords {
        code: SIGNED,
        low: low.value,
        high: high.value,
        first: first.value,
        ok: is_done(first.next),
    }
}

fn real(line: &[u8], s: Scan) -> KindWords
    ensures value { result ≡ limits_by 3 (float_at line.now) s }
    ensures code_bound { result.code < 256 }
{
    let low = read_float(line, s);
    let high = read_float(line, low.next);
    let first = read_float(line, high.next);
    KindWords {
        code: FLOAT,
        low: low.value,
        high: high.value,
        first: first.value,
        ok: is_done(first.next),
    }
}

fn text(line: &[u8], s: Scan, bytes: &mut [u8]) -> KindWords
    ensures value { result ≡ text_of (rest_at line.now s (length bytes.old)) }
    ensures bytes_after { bytes.new ≡ rest_kept line.now s bytes.old }
    ensures code_bound { result.code < 256 }
{
    let b = rest(line, s, bytes);
    KindWords {
        code: TEXT,
        low: 0,
        high: b.len as u64,
        first: 0,
        ok: b.ok,
    }
}

// bool FIRST | unsigned LOW HIGH FIRST | signed LOW HIGH FIRST | float LOW HIGH FIRST | text BYTES..
fn read_limits(line: &[u8], s: Scan, bytes: &mut [u8]) -> KindWords
    ensures value { result ≡ limits_at line.now s (length bytes.old) }
    ensures bytes_after { bytes.new ≡ limits_kept line.now s bytes.old }
    ensures code_bound { result.code < 256 }
{
    let w = next_word(line, s);
    let start = w.start;
    let end = w.end;
    let kind = &line[start..end];
    if same_bytes(kind, b"bool") {
        return boolean(line, w.next);
    }
    if same_bytes(kind, b"unsigned") {
        return unsigned(line, w.next);
    }
    if same_bytes(kind, b"signed") {
        return integer(line, w.next);
    }
    if same_bytes(kind, b"float") {
        return real(line, w.next);
    }
    if same_bytes(kind, b"text") {
        return text(line, w.next, bytes);
    }
    KindWords {
        code: BOOLEAN,
        low: 0,
        high: 0,
        first: 0,
        ok: false,
    }
}

// The privilege as the schema has it, 0 for none. A line's 0 is no privilege: it becomes 5, which is none either and is refused.
fn privilege(m: Option<u64>) -> u64
    requires { IfSome m (λ n. n ≤ 255) }
    ensures value { result ≡ privilege_of m }
    ensures upper_bound { result < 256 }
{
    match m {
        None => 0,
        Some(0) => 5,
        Some(n) => n,
    }
}

// What a line says of an attribute. Of a text the bytes stand in a buffer.
#[derive(Clone, Copy)]
struct AttributeLine {
    path: u64,
    id: u64,
    traits: u64,
    limits: KindWords,
}

fn read_row(line: &[u8], s: Scan, bytes: &mut [u8]) -> AttributeLine
    ensures value { result ≡ row_at line.now s (length bytes.old) }
    ensures bytes_after { bytes.new ≡ row_kept line.now s bytes.old }
{
    let p = read_path(line, s);
    let read = read_marked(line, p.next, b'-', 255);
    let write = read_marked(line, read.next, b'-', 255);
    let nullable = read_flag(line, write.next);
    let limits = read_limits(line, nullable.next, bytes);
    AttributeLine {
        path: p.endpoint as u64 * HALF + p.cluster as u64,
        id: p.attribute as u64,
        traits: limits.code
            + nullable.value * NULLABLE_PART
            + privilege(read.value) * READ_PART
            + privilege(write.value) * WRITE_PART,
        limits,
    }
}

// The row that the next attribute takes; ATTRIBUTES where there is none left.
fn next_row(setup: &mut [u64; SETUP]) -> usize
    ensures value { result ≡ next_row setup.old }
    ensures setup_after { setup.new ≡ attributes_counted setup.old }
    ensures upper_bound { result ≤ attribute_limit }
{
    let n = setup[ATTRIBUTE_COUNT_WORD];
    setup[ATTRIBUTE_COUNT_WORD] = count_up(n, ATTRIBUTES as u64 + 1);
    if n < ATTRIBUTES as u64 {
        return n as usize;
    }
    ATTRIBUTES
}

// The words of a row.
fn set_row(setup: &mut [u64; SETUP], i: usize, row: AttributeLine)
    requires { i < attribute_limit }
    ensures { setup.new ≡ row_set setup.old i row }
{
    let limits = row.limits;
    setup[PATHS + i] = row.path;
    setup[KEY + i] = row.id;
    setup[TRAITS + i] = row.traits;
    setup[LOW + i] = limits.low;
    setup[HIGH + i] = limits.high;
    setup[FIRST + i] = limits.first;
}

// A factory text goes to the place of its row. An overlong one is not kept: its length alone has the schema refused.
fn set_text(setup: &mut [u64; SETUP], texts: &mut [u8], i: usize, bytes: &[u8])
    requires { i < attribute_limit }
    ensures setup_after { setup.new ≡ text_placed setup.old i }
    ensures texts_after { texts.new ≡ text_stored texts.old i bytes.now }
{
    let at = TEXT_SIZE * i;
    setup[LOW + i] = at as u64;
    if bytes.len() <= TEXT_SIZE {
        if at <= texts.len() {
            if bytes.len() <= texts.len() - at {
                base_octets::put_bytes(texts, at, bytes);
            }
        }
    }
}

fn add_row(setup: &mut [u64; SETUP], texts: &mut [u8; PAGE], row: AttributeLine, bytes: &[u8])
    ensures setup_after { setup.new ≡ setup_added setup.old row }
    ensures texts_after { texts.new ≡ texts_added setup.old texts.old row bytes.now }
{
    let i = next_row(setup);
    if ATTRIBUTES <= i {
        return;
    }
    set_row(setup, i, row);
    let limits = row.limits;
    if limits.code == TEXT {
        let n = clip(limits.high as usize, bytes);
        set_text(setup, texts, i, &bytes[..n]);
    }
}

pub fn attribute_line(
    line: &[u8],
    s: Scan,
    setup: &mut [u64; SETUP],
    texts: &mut [u8; PAGE],
) -> bool
    ensures value { result ≡ attribute_read line.now s }
    ensures setup_after { setup.new ≡ attribute_setup line.now s setup.old }
    ensures texts_after { texts.new ≡ attribute_texts line.now s setup.old texts.old }
{
    let mut bytes = [0u8; SPELLED];
    let row = read_row(line, s, &mut bytes);
    let limits = row.limits;
    if !limits.ok {
        return false;
    }
    add_row(setup, texts, row, &bytes);
    true
}
