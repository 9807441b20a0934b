// Numbers of two and four bytes in a lent slice, most significant byte first.
ghost use Rattle.std.specs.Prelude.{◌≡◌, ◌+◌, ◌≤◌, ◌<◌, length};
ghost use Rattle.field.specs.Numbers.{u16_at, u32_at, put_u16, put_u32};

// A byte as a number that sums can be made of.
pub fn wide(x: u8) -> u32
    ensures { (result ≡ x) × (result < 256) }
{
    u32::from(x)
}

#[tactic(auto, unfolding(crate::specs::Numbers::u16_at))]
pub fn get_u16(s: &[u8], at: usize) -> u32
    requires { at + 2 ≤ length s.now }
    ensures { (result ≡ u16_at s.now at) × (result < 65536) }
{
    u32::from(u16::from_be_bytes([s[at], s[at + 1]]))
}

#[tactic(auto, unfolding(crate::specs::Numbers::u32_at))]
pub fn get_u32(s: &[u8], at: usize) -> u32
    requires { at + 4 ≤ length s.now }
    ensures { result ≡ u32_at s.now at }
{
    u32::from_be_bytes([s[at], s[at + 1], s[at + 2], s[at + 3]])
}

#[tactic(auto, using(crate::proofs::NumberLaws::u16_laid))]
pub fn put_u16(s: &mut [u8], at: usize, v: u32)
    requires { (at + 2 ≤ length s.old) × (v < 65536) }
    ensures { s.new ≡ put_u16 s.old at v }
{
    s[at..at + 2].copy_from_slice(&(v as u16).to_be_bytes());
}

#[tactic(auto, using(crate::proofs::NumberLaws::u32_laid))]
pub fn put_u32(s: &mut [u8], at: usize, v: u32)
    requires { at + 4 ≤ length s.old }
    ensures { s.new ≡ put_u32 s.old at v }
{
    s[at..at + 4].copy_from_slice(&v.to_be_bytes());
}
