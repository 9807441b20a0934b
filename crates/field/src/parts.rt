// Parts of a lent slice: copied over, filled, compared.
ghost use Rattle.std.specs.Prelude.{◌≡◌, ◌+◌, ◌≤◌, ◌<◌, length, take, drop, replicate};
ghost use Rattle.field.specs.Says.{Says};
ghost use Rattle.field.specs.Parts.{over, AllBytes};

// Lays t over s from `at` on, byte by byte: that becomes memcpy. A copy_from_slice of lent slices asked for memmove, which the box has not.
pub fn copy(s: &mut [u8], at: usize, t: &[u8])
    requires { at + length t.now ≤ length s.old }
    ensures { s.new ≡ over s.old at t.now }
{
    for (i, byte) in t.iter().enumerate() {
        s[at + i] = *byte;
    }
}

// Makes the n bytes from `at` on v.
pub fn fill(s: &mut [u8], at: usize, n: usize, v: u8)
    requires { at + n ≤ length s.old }
    ensures { s.new ≡ over s.old at (replicate n v) }
{
    s[at..at + n].fill(v);
}

// Is t what stands in s from `at` on?
pub fn same(s: &[u8], at: usize, t: &[u8]) -> bool
    requires { at + length t.now ≤ length s.now }
    ensures { Says result (take (length t.now) (drop at s.now) ≡ t.now) }
{
    &s[at..at + t.len()] == t
}

// Are the n bytes from `at` on all v? Eight are compared at once.
pub fn bytes_all(s: &[u8], at: usize, n: usize, v: u8) -> bool
    requires { at + n ≤ length s.now }
    ensures { Says result (AllBytes s.now at n v) }
{
    let (eights, rest) = s[at..at + n].as_chunks::<8>();
    eights.iter().all(|eight| *eight == [v; 8]) && rest.iter().all(|byte| *byte == v)
}
