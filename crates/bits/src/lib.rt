// The halves of 64-bit words. The vocabulary of definitions and the laws of bits are in specs/ and proofs/.
#![tactic(auto)]

ghost use Rattle.std.specs.Prelude.{◌≡◌};
ghost use Rattle.bits.specs.Words.{low32, high32, join32};

// The low half, as ECX of RCX.
pub fn low(x: u64) -> u32
    ensures { result ≡ low32 x }
{
    (x % 0x1_0000_0000) as u32
}

pub fn high(x: u64) -> u32
    ensures { result ≡ high32 x }
{
    (x >> 32) as u32
}

// The word of two halves, as EDX:EAX.
pub fn join(high: u32, low: u32) -> u64
    ensures { result ≡ join32 high low }
{
    high as u64 * 0x1_0000_0000 + low as u64
}
