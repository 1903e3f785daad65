// The least width of a number: 1, 2, 4 or 8 octets.
ghost use Rattle.std.specs.Prelude.{◌≡◌, ◌≤◌};
ghost use Rattle.std.specs.Int.Signed.{mag};
ghost use Rattle.tlv_writer.specs.Width.{least_width, least_signed_width, twos, width_code};

pub fn unsigned_width(v: u64) -> usize
    ensures value { result ≡ least_width v }
    ensures small { result ≤ 8 }
{
    if v < 256 {
        return 1;
    }
    if v < 65536 {
        return 2;
    }
    if v < 4294967296 {
        return 4;
    }
    8
}

// The least width of z in two's complement.
pub fn signed_width(z: i64) -> usize
    ensures value { result ≡ least_signed_width z }
    ensures small { result ≤ 8 }
{
    let n = magnitude(z);
    if n < 128 {
        return 1;
    }
    if n < 32768 {
        return 2;
    }
    if n < 2147483648 {
        return 4;
    }
    8
}

pub fn length_width(n: usize) -> usize
    ensures value { result ≡ least_width n }
    ensures small { result ≤ 8 }
{
    unsigned_width(n as u64)
}

// What a width adds to the first of four element types that differ in their width alone.
pub fn width_code(w: usize) -> u8
    ensures value { result ≡ width_code w }
    ensures small { result ≤ 3 }
{
    match w {
        1 => 0,
        2 => 1,
        4 => 2,
        _ => 3,
    }
}

// z, or -1 - z where that is below 0.
fn magnitude(z: i64) -> u64
    ensures { result ≡ mag z }
{
    if z < 0 { (!z) as u64 } else { z as u64 }
}

// The 64 bits of z, in two's complement.
pub fn bits_of(z: i64) -> u64
    ensures { result ≡ twos 8 z }
{
    let n = magnitude(z);
    if z < 0 { 18446744073709551615 - n } else { n }
}
