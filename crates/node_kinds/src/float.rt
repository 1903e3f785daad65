// Floats by their bits: NaN patterns, finite values, the range of an attribute.
ghost use Rattle.std.specs.Prelude.{◌≡◌, ◌&&◌};
ghost use Rattle.std.specs.Float.{binary32};
ghost use Rattle.std.specs.Float.Ieee.{nan_bits};
ghost use Rattle.node_kinds.specs.Float.{float32, finite, float_of, range_of, in_range, in_order, range_ok};

use super::Range;

pub fn nan_bits(n: u32) -> bool
    ensures { result ≡ nan_bits binary32 n }
{
    if n % 2147483648 / 8388608 == 255 {
        n % 8388608 != 0
    } else {
        false
    }
}

// Neither an infinity nor a NaN.
pub fn finite_bits(n: u32) -> bool
    ensures { result ≡ finite (float32 n) }
{
    n % 2147483648 / 8388608 != 255
}

// The float of a bit pattern, 0.0 of a NaN's.
pub fn float_of(n: u32) -> f32
    ensures { result ≡ float_of n }
{
    if nan_bits(n) { 0.0 } else { f32::from_bits(n) }
}

pub fn range_of(low: u32, high: u32, first: u32) -> Range
    ensures { result ≡ range_of low high first }
{
    Range {
        low: float_of(low),
        high: float_of(high),
        first: float_of(first),
    }
}

// By float comparison, ends included: -0.0 is 0.0, and a NaN is never in range.
pub fn in_range(r: Range, bits: u32) -> bool
    ensures { result ≡ in_range r bits }
{
    if nan_bits(bits) {
        return false;
    }
    let x = f32::from_bits(bits);
    if r.low <= x { x <= r.high } else { false }
}

// The lowest is not above the first, nor the first above the highest.
fn in_order(r: Range) -> bool
    ensures { result ≡ in_order r.low r.high r.first }
{
    if r.low <= r.first {
        r.first <= r.high
    } else {
        false
    }
}

// What a schema's float has to meet: three finite values in order.
pub fn range_ok(low: u32, high: u32, first: u32) -> bool
    ensures { result ≡ range_ok low high first }
{
    if !finite_bits(low) {
        return false;
    }
    if !finite_bits(high) {
        return false;
    }
    if !finite_bits(first) {
        return false;
    }
    in_order(range_of(low, high, first))
}

// The same, and a value held in range: of finite limits only what is finite is, and the exponent tells that at once.
pub fn range_holds(low: u32, high: u32, first: u32, held: u32) -> bool
    ensures { result ≡ (range_ok low high first && in_range (range_of low high first) held) }
{
    if !range_ok(low, high, first) {
        return false;
    }
    if !finite_bits(held) {
        return false;
    }
    in_range(range_of(low, high, first), held)
}
