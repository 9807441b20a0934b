// A signed argument, taken apart where it comes in.
ghost use Rattle.std.specs.Prelude.{◌≡◌};
ghost use Rattle.requests.specs.Amounts.{amount_of};

// The number, or nothing where it is below 0.
pub fn amount_of(n: i32) -> Option<u32>
    ensures { result ≡ amount_of n }
{
    u32::try_from(n).ok()
}
