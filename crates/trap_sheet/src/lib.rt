// The trap sheet: which ports and which accesses to MSRs the three intercept frames trap, as text that an installer reads.
#![tactic(auto)]

mod frames;
mod lines;
mod runs;
mod search;

ghost use Rattle.std.specs.Prelude.{◌≡◌, ℕ};
ghost use Rattle.trap_sheet.specs.Sheet.{trap_sheet};
ghost use Rattle.trap_sheet.specs.Answer.{answered};

use definitions::Refusal;
use frames::Frames;
use structs::FRAME_SIZE;
use text::writer::Writer;

// Puts the sheet at the start of output, and answers its length in bytes: refusals 2, 24. The length is found before anything is written.
#[tactic(auto, unfolding(crate::specs::Sheet::trap_sheet))]
pub fn trap_sheet(a: &[u8], b: &[u8], msr: &[u8], output: &mut [u8]) -> Result<usize, Refusal>
    ensures { (size : ℕ) → answered result output.new size ≡ trap_sheet a.now b.now msr.now output.old size }
{
    if a.len() != FRAME_SIZE || b.len() != FRAME_SIZE || msr.len() != FRAME_SIZE {
        return Err(Refusal::Bytes);
    }
    let frames = Frames { a, b, msr };
    let size = frames.sheet_length();
    if output.len() < size {
        return Err(Refusal::Room);
    }
    let mut sheet = Writer::new(output);
    frames.put_sheet(&mut sheet);
    Ok(size)
}
