// Prints the edges of documents 01 and 02 of setup, and of XCR0 in a session that is set up, as the exported functions answer them. The lines are as in the program edges, and tools/edges.py says what
// must be printed.
#![tactic(auto)]

mod pairs;
mod setups;
mod xcr0;

use blocks::setup::Layout;
use host_calls::{Frames, HeldSession};
use record::words::Stored;
use replay::answered;
use std::io;
use x86_vcpu::setup::vcpu_setup;

// A word of the block: its offset and its value.
type Word = (usize, u64);

// The words of a processor with TRUE words, which setup accepts. Those of the controls have allowed-0 in the low half. The plain primary word demands bits 15 and 16.
const USUAL: [Word; 14] = [
    (Layout::VMX_BASIC, 0x00DA_0400_0000_0004),
    (Layout::PINBASED_CTLS, 0x0000_007F_0000_0016),
    (Layout::PROCBASED_CTLS, 0xFFF9_FFFE_0401_E172),
    (Layout::EXIT_CTLS, 0x01FF_FFFF_0003_6DFF),
    (Layout::ENTRY_CTLS, 0x0000_F3FF_0000_11FF),
    (Layout::PROCBASED_CTLS2, 0x0010_108A_0000_0000),
    (Layout::TRUE_PINBASED_CTLS, 0x0000_007F_0000_0016),
    (Layout::TRUE_PROCBASED_CTLS, 0xFFF9_FFFE_0400_6172),
    (Layout::TRUE_EXIT_CTLS, 0x01FF_FFFF_0003_6DFB),
    (Layout::TRUE_ENTRY_CTLS, 0x0000_F3FF_0000_11FB),
    (Layout::CR0_FIXED0, 0x8000_0021),
    (Layout::CR0_FIXED1, 0xFFFF_FFFF),
    (Layout::CR4_FIXED0, 0x2000),
    (Layout::CR4_FIXED1, 0x3F_FFFF),
];

// The block of the usual words but for these.
fn block_with(changed: &[Word]) -> [u8; Layout::LENGTH] {
    let mut block = [0; Layout::LENGTH];
    for &(at, value) in USUAL.iter().chain(changed) {
        if at < Layout::LENGTH - 7 {
            u64::put(&mut block, at, value);
        }
    }
    block
}

// Sets a session up, with frames that intercept nothing.
fn set_up(session: &mut HeldSession, block: &[u8; Layout::LENGTH]) -> Result<(), u32> {
    let Frames {
        mut a,
        mut b,
        mut msr,
    } = Frames::new();
    let refusal = vcpu_setup(&mut session.bytes, block, &mut a, &mut b, &mut msr);
    answered(refusal, ())
}

fn main(rt: HostRuntime) -> io::Result<()> {
    setups::setups(&rt)?;
    pairs::pairs(&rt)?;
    xcr0::xcr0(&rt)
}
