// The sheet of a text that a stream gives, written to another stream.
ghost use Rattle.std.specs.Prelude.{IfSome, OnOk};
ghost use Rattle.std.specs.Io.KnownBytes.{Appends};
ghost use Rattle.sheet.specs.Sheet.{sheet_of};

use std::io;
use std::io::{Read, Write};

// Reads one byte more than the longest text where there is one, so that a longer input is noticed, and prints the sheet.
pub fn print_sheet<R: Read, W: Write>(input: &mut R, output: &mut W) -> io::Result<()>
    ensures { OnOk result (IfSome (R.remaining input.old) (λ text. Appends (W.contents output.old) (W.contents output.new) (sheet_of text))) }
{
    let mut text = [0u8; crate::LONGEST + 1];
    let read = streams::fill(input, &mut text)?;
    let mut sheet = [0u8; crate::ROOM];
    let length = crate::sheet(&text[..read], &mut sheet);
    output.write_all(&sheet[..length])
}
