// The program trapsheet, as a function from the bytes that it reads to the text that it prints; and that from one stream to another.
#![tactic(auto)]

pub mod file;

ghost use Rattle.std.specs.Prelude.{◌≡◌, ◌++◌, length, drop};
ghost use Rattle.trap_sheet_io.specs.Printed.{printed_for};

use structs::FRAME_SIZE;
use text::writer::Writer;

// The input: the frames A, B and MSR, one behind the other.
pub const FRAMES: usize = 3 * FRAME_SIZE;

// Room for the largest sheet: three totals, and as many runs as every second bit of the three frames gives.
pub const ROOM: usize = 2_015_355;

// Puts all that is printed for an input at the start of output, and answers how many bytes that is.
pub fn printed(input: &[u8], output: &mut [u8; ROOM]) -> usize
    ensures count { result ≡ length (printed_for input.now) }
    ensures text { output.new ≡ printed_for input.now ++ drop result output.old }
{
    if input.len() != FRAMES {
        let mut refusal = Writer::new(output);
        refusal.put(b"refused 2\n");
        return refusal.written();
    }
    let (a, rest) = input.split_at(FRAME_SIZE);
    let (b, msr) = rest.split_at(FRAME_SIZE);
    trap_sheet::trap_sheet(a, b, msr, output).unwrap()
}
