// The sheet of three frames.
ghost use Rattle.std.specs.Prelude.{◌≡◌, ◌≤◌, length};
ghost use Rattle.text.specs.Writing.{Room, Puts};
ghost use Rattle.trap_sheet.specs.Sheet.{total_lines, sheet_of};
ghost use Rattle.trap_sheet.specs.Search.{bit_count, access_runs, access_lines};

use crate::lines;
use crate::runs::Runs;
use text::writer::Writer;

// The bytes of a line, and the total lines.
const LINE: usize = 41;

const TOTALS: usize = 3;
// Reads are the first half of the MSR frame, writes the second.
const HALF: usize = 2048;

// The intercept frames.
#[derive(Drop)]
pub struct Frames<'a> {
    pub a: &'a [u8],
    pub b: &'a [u8],
    pub msr: &'a [u8],
    ghost a_length: { length a.now ≡ 4096 },
    ghost b_length: { length b.now ≡ 4096 },
    ghost msr_length: { length msr.now ≡ 4096 },
}

// The set bits of a bitmap: those of each byte, summed.
fn count_ones(bits: &[u8]) -> u32
    requires { length bits.now ≤ 4096 }
    ensures { result ≡ bit_count bits.now }
{
    bits.iter().map(|b| b.count_ones()).sum()
}

// How many runs one access to MSRs has. The half comes from `split_at`, which gives slices, so its length is a clause.
fn count_access(half: &[u8]) -> usize
    requires { length half.now ≡ 2048 }
    ensures { result ≡ length (access_runs half.now) }
{
    let (low, high) = Runs::of_access(half);
    low.count() + high.count()
}

// Puts the lines of one access to MSRs, those of the low range before those of the high one.
fn put_access(kind: &[u8], half: &[u8], output: &mut Writer)
    requires room { Room (access_lines kind.now half.now) output.old }
    requires half { length half.now ≡ 2048 }
    ensures { Puts (access_lines kind.now half.now) output.old output.new }
{
    let (low, high) = Runs::of_access(half);
    lines::put_runs(kind, low, output);
    lines::put_runs(kind, high, output);
}

impl Frames<'_> {
    // The length of the sheet: three totals, and a line for each run.
    pub fn sheet_length(&self) -> usize
        ensures { result ≡ length (sheet_of self.now.a.now self.now.b.now self.now.msr.now) }
    {
        let (reads, writes) = self.msr.split_at(HALF);
        let ports = Runs::new(self.a, self.b, 0).count();
        let reads = count_access(reads);
        let writes = count_access(writes);
        LINE * (TOTALS + ports + reads + writes)
    }

    // Puts the sheet.
    pub fn put_sheet(&self, output: &mut Writer)
        requires { Room (sheet_of self.now.a.now self.now.b.now self.now.msr.now) output.old }
        ensures { Puts (sheet_of self.now.a.now self.now.b.now self.now.msr.now) output.old output.new }
    {
        let (reads, writes) = self.msr.split_at(HALF);
        self.put_totals(output);
        lines::put_runs(b"port", Runs::new(self.a, self.b, 0), output);
        put_access(b"read", reads, output);
        put_access(b"writ", writes, output);
    }

    // Puts the three total lines.
    #[tactic(auto, using(crate::proofs::SheetLaws::totals_length))]
    fn put_totals(&self, output: &mut Writer)
        requires { Room (total_lines self.now.a.now self.now.b.now self.now.msr.now) output.old }
        ensures { Puts (total_lines self.now.a.now self.now.b.now self.now.msr.now) output.old output.new }
    {
        let (reads, writes) = self.msr.split_at(HALF);
        lines::put_total(b"port", count_ones(self.a) + count_ones(self.b), output);
        lines::put_total(b"read", count_ones(reads), output);
        lines::put_total(b"writ", count_ones(writes), output);
    }
}
