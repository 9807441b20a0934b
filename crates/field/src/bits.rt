// One bit a sector: bit n stands in byte base + n / 8, the lowest n at the highest bit.
// A bit is a number, 0 or 1, and no bool: the definitions add bits up and multiply them by their weights.
ghost use Rattle.std.specs.Prelude.{◌≡◌, ◌+◌, ◌/◌, ◌^◌, ◌≤◌, ◌<◌, length};
ghost use Rattle.field.specs.Bits.{bit_at, bit_of, put_bit, with_bit};

fn power(k: u32) -> u32
    requires { k < 8 }
    ensures { (result ≡ 2 ^ k) × (result ≤ 128) × (0 < result) }
{
    1 << k
}

// The bit of weight 2 ^ k.
#[tactic(auto, unfolding(crate::specs::Bits::bit_of))]
fn bit_of(x: u32, k: u32) -> u32
    requires { k < 8 }
    ensures { (result ≡ bit_of x k) × (result < 2) }
{
    (x >> k) % 2
}

// x with v for the bit of weight 2 ^ k.
fn with_bit(x: u32, k: u32, v: u32) -> u32
    requires { (x < 256) × (k < 8) × (v < 2) }
    ensures { (result ≡ with_bit x k v) × (result < 256) }
{
    let p = power(k);
    let old = bit_of(x, k);
    x + v * p - old * p
}

#[tactic(auto, unfolding(crate::specs::Bits::bit_at))]
pub fn get_bit(s: &[u8], base: usize, n: usize) -> u32
    requires { base + n / 8 < length s.now }
    ensures { (result ≡ bit_at s.now base n) × (result < 2) }
{
    let k = 7 - (n % 8) as u32;
    bit_of(u32::from(s[base + n / 8]), k)
}

#[tactic(auto, unfolding(crate::specs::Bits::put_bit))]
pub fn put_bit(s: &mut [u8], base: usize, n: usize, v: u32)
    requires { (base + n / 8 < length s.old) × (v < 2) }
    ensures { s.new ≡ put_bit s.old base n v }
{
    let k = 7 - (n % 8) as u32;
    let at = base + n / 8;
    s[at] = with_bit(u32::from(s[at]), k, v) as u8;
}
