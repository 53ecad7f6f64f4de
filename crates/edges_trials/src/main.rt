// Prints the edges of the trials (document 02, N5), as the exported functions answer them: the order of 2, 25 and the call's own numbers, and what is shown. The lines are as in the program
// edges, and tools/edges.py says what must be printed.
#![tactic(auto)]

mod frames;
mod records;

use std::io;

// What the second buffers hold before a trial.
const BEFORE: u8 = 0xEE;

// The byte at a place, or 0 past the end.
fn byte_at(bytes: &[u8], at: usize) -> u64 {
    bytes.get(at).map_or(0, |byte| u64::from(*byte))
}

fn main(rt: HostRuntime) -> io::Result<()> {
    records::entries(&rt)?;
    records::reports(&rt)?;
    frames::ports(&rt)?;
    frames::msrs(&rt)
}
