// The trap sheet of the frames that a stream gives, written to another stream.
ghost use Rattle.std.specs.Prelude.{IfSome, OnOk};
ghost use Rattle.std.specs.Io.KnownBytes.{Appends};
ghost use Rattle.trap_sheet_io.specs.Printed.{printed_for};

use std::io;
use std::io::{Read, Write};

// Reads one byte more than the frames have where there is one, so that a longer input is noticed, and prints the sheet.
pub fn print_trap_sheet<R: Read, W: Write>(input: &mut R, output: &mut W) -> io::Result<()>
    ensures { OnOk result (IfSome (R.remaining input.old) (λ frames. Appends (W.contents output.old) (W.contents output.new) (printed_for frames))) }
{
    let mut frames = [0u8; crate::FRAMES + 1];
    let read = streams::fill(input, &mut frames)?;
    let mut sheet = [0u8; crate::ROOM];
    let length = crate::printed(&frames[..read], &mut sheet);
    output.write_all(&sheet[..length])
}
