// Prints the edges of documents 01 and 02 as the exported functions answer them: frames, registers, fields, control words, lengths, addresses and trap sheets. A line for each call: its
// name, its arguments in hexadecimal, and then values in hexadecimal or the refusal. tools/edges.py says what must be printed.
#![tactic(auto)]

mod fields;
mod frames;
mod lengths;
mod sheets;

use std::io;

fn main(rt: HostRuntime) -> io::Result<()> {
    frames::ports(&rt)?;
    frames::orders(&rt)?;
    frames::msrs(&rt)?;
    fields::registers(&rt)?;
    fields::fields(&rt)?;
    fields::controls(&rt)?;
    lengths::lengths(&rt)?;
    fields::addresses(&rt)?;
    sheets::sheets(&rt)
}
