// The runs of set bits, which are their maximal stretches.
ghost use Rattle.std.specs.Prelude.{◌≡◌, ◌++◌, ◌+◌, ◌*◌, ◌≤◌, ◌<◌, ◌^◌, length};

use crate::search;
use structs::HIGH_MSRS;

// A quarter of the MSR frame: a bit for each MSR of a range.
const QUARTER: usize = 1024;

// The items of a run.
#[derive(Drop)]
pub struct Run {
    pub first: u32,
    pub last: u32,
    ghost ordered: { first ≤ last },
}

// The runs of two slices, the one behind the other, from bit `from` on. Bit 0 is item `base`.
#[derive(Drop)]
pub struct Runs<'a> {
    low: &'a [u8],
    high: &'a [u8],
    base: u32,
    from: usize,
    ghost low_short: { length low.now ≤ 4096 },
    ghost high_short: { length high.now ≤ 4096 },
    ghost items: { base + 8 * (length low.now + length high.now) < 2 ^ 32 },
    ghost within: { from ≤ 8 * (length low.now + length high.now) },
}

impl<'a> Runs<'a> {
    ghost use Rattle.trap_sheet.specs.Search.{bit_runs, access_runs};
    ghost use Rattle.trap_sheet.specs.Left.{left};

    pub fn new(low: &'a [u8], high: &'a [u8], base: u32) -> Runs<'a>
        requires low_short { length low.now ≤ 4096 }
        requires high_short { length high.now ≤ 4096 }
        requires items { base + 8 * (length low.now + length high.now) < 2 ^ 32 }
        ensures { left result ≡ bit_runs base (low.now ++ high.now) }
    {
        Runs {
            low,
            high,
            base,
            from: 0,
        }
    }

    // The runs of one access to MSRs. Its half of the frame has the low range before the high one, and no run is in both.
    pub fn of_access(half: &'a [u8]) -> (Runs<'a>, Runs<'a>)
        requires { length half.now ≡ 2048 }
        ensures { left result.0 ++ left result.1 ≡ access_runs half.now }
    {
        let (low, high) = half.split_at(QUARTER);
        (
            Runs::new(low, &[], 0),
            Runs::new(high, &[], HIGH_MSRS as u32),
        )
    }
}

impl Iterator for Runs<'_> {
    ghost use Rattle.std.specs.Iterator.{YieldsFirstBy, item_count};
    ghost use Rattle.trap_sheet.specs.Left.{run_of, left};

    type Item = Run;

    ghost next_gives = { YieldsFirstBy run_of left };

    ghost remaining = { item_count left };

    fn next(&mut self) -> Option<Run> {
        let end = 8 * (self.low.len() + self.high.len());
        let first = search::next_of(self.low, self.high, self.from, true);
        if first == end {
            return None;
        }
        let stop = search::next_of(self.low, self.high, first, false);
        self.from = stop;
        Some(Run {
            first: self.base + first as u32,
            last: self.base + (stop - 1) as u32,
        })
    }
}
