// The program casesheet of document 01, as a function from the text that it reads to the text that it prints; and that from one stream to another.
#![tactic(auto)]

pub mod file;
mod line;
mod lines;

ghost use Rattle.std.specs.Prelude.{◌≡◌, ◌++◌, length, drop};
ghost use Rattle.text.specs.Writing.{Room, Puts};
ghost use Rattle.sheet.specs.Sheet.{sheet_of};

use lines::Lines;
use text::writer::Writer;

// The longest text that is taken.
pub const LONGEST: usize = 65536;

// Room for the longest output: an empty line, one byte, gives the six of a bad line, and no input gives more for each byte.
pub const ROOM: usize = 6 * LONGEST;

// Puts all that is printed for a text at the start of output, and answers how many bytes that is.
pub fn sheet(input: &[u8], output: &mut [u8; ROOM]) -> usize
    ensures count { result ≡ length (sheet_of input.now) }
    ensures text { output.new ≡ sheet_of input.now ++ drop result output.old }
{
    let mut sheet = Writer::new(output);
    put_sheet(input, &mut sheet);
    sheet.written()
}

// Puts all that is printed for a text.
fn put_sheet(input: &[u8], output: &mut Writer)
    requires { Room (sheet_of input.now) output.old }
    ensures { Puts (sheet_of input.now) output.old output.new }
{
    let longer = LONGEST < input.len();
    if longer {
        output.put(b"too long\n");
        return;
    }
    for line in (Lines { rest: input }) {
        line::put_line(line, output);
    }
}
