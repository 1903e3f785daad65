// Where a byte stands first.
ghost use Rattle.std.specs.Prelude.{◌≡◌, ◌+◌, ◌≤◌, length};
ghost use Rattle.script_lines.specs.Find.{index_of, slice};

// Where b stands first from `at` on, before `end`; the end if it stands nowhere there.
pub fn find(s: &[u8], at: usize, end: usize, b: u8) -> usize
    requires order { at ≤ end }
    requires within { end ≤ length s.now }
    ensures value { result ≡ at + index_of b (slice at end s.now) }
    ensures small { result ≤ end }
{
    for i in at..end {
        if s[i] == b {
            return i;
        }
    }
    end
}
