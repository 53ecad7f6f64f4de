// The search for the next bit of a value.
ghost use Rattle.std.specs.Prelude.{◌≡◌, ◌++◌, ◌+◌, ◌*◌, ◌≤◌, ◌<◌, length};
ghost use Rattle.trap_sheet.specs.Search.{all_are, Passed, Next};

// The eight bytes from byte i on are all x.
#[tactic(auto, unfolding(crate::specs::Search::all_are))]
fn eight_are(bits: &[u8], i: usize, x: u8) -> bool
    requires { i + 8 ≤ length bits.now }
    ensures { result ≡ all_are bits.now i x 8 }
{
    (bits[i] == x)
        & (bits[i + 1] == x)
        & (bits[i + 2] == x)
        & (bits[i + 3] == x)
        & (bits[i + 4] == x)
        & (bits[i + 5] == x)
        & (bits[i + 6] == x)
        & (bits[i + 7] == x)
}

// A number of bits from bit n on, none of which is v; 0 only where bit n is v. Whole bytes that have no bit v are passed at once.
fn passed(bits: &[u8], n: usize, v: bool) -> usize
    requires { n < 8 * length bits.now }
    ensures { Passed bits.now v n result }
{
    let other = structs::full_byte(!v);
    let i = n / 8;
    let k = n % 8;
    if k == 0 {
        if i + 8 <= bits.len() {
            if eight_are(bits, i, other) {
                return 64;
            }
        }
        if bits[i] == other {
            return 8;
        }
    }
    if (bits[i] >> k as u8) % 2 == v as u8 {
        return 0;
    }
    1
}

// The first bit from `from` on that is v, or one past the last.
// One past the last, not None: a run that reaches the end stops there.
fn next_bit(bits: &[u8], from: usize, v: bool) -> usize
    requires { (from ≤ 8 * length bits.now) × (length bits.now ≤ 4096) }
    ensures { Next bits.now v from result }
{
    let end = 8 * bits.len();
    let mut n = from;
    // A step is a bit, a byte or eight bytes, as `passed` finds them, so no range of bits fits.
    while n < end {
        let step = passed(bits, n, v);
        if step == 0 {
            return n;
        }
        n += step;
    }
    n
}

// The first bit from `from` on that is v in two slices, the one behind the other, or one past the last, as `next_bit`. A run of ports may start in I/O bitmap A and end in B.
pub fn next_of(low: &[u8], high: &[u8], from: usize, v: bool) -> usize
    requires { (from ≤ 8 * (length low.now + length high.now)) × (length low.now ≤ 4096) × (length high.now ≤ 4096) }
    ensures { Next (low.now ++ high.now) v from result }
{
    let border = 8 * low.len();
    if border <= from {
        return border + next_bit(high, from - border, v);
    }
    let n = next_bit(low, from, v);
    if n < border {
        return n;
    }
    border + next_bit(high, 0, v)
}
