// Numbers held to what there is.
ghost use Rattle.std.specs.Prelude.{◌≡◌, ◌≤◌, min, length};
ghost use Rattle.script_lines.specs.Words.{Filled};

// So many bytes, or as many as there are. It takes the bytes and not their number, so that the contract can speak of the part that is lent.
pub fn clip(n: usize, s: &[u8]) -> usize
    ensures value { result ≡ min n (length s.now) }
    ensures filled { Filled result s.now }
{
    n.min(s.len())
}
