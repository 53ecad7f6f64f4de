// Setup of a processor with TRUE words.
use crate::Word;
use blocks::setup::Layout;
use host_calls::HeldSession;
use record::Record;
use replay::print_line;
use std::io;
use vcpu_session::Phase;

// Sets a session up in a phase: its phase after that.
fn phase_after(phase: u8, block: &[u8; Layout::LENGTH]) -> Result<[u64; 1], u32> {
    let mut session = HeldSession::in_phase(phase);
    crate::set_up(&mut session, block)?;
    Ok([session.bytes[Record::PHASE].into()])
}

// Two words of the block changed.
fn setup(rt: &impl Print, phase: u8, first: Word, second: Word) -> io::Result<()> {
    let block = crate::block_with(&[first, second]);
    print_line(
        rt,
        "setup",
        &[
            phase.into(),
            first.0 as u64,
            first.1,
            second.0 as u64,
            second.1,
        ],
        phase_after(phase, &block),
    )
}

// A yes/no byte of the block.
fn flag(rt: &impl Print, at: usize, value: u8) -> io::Result<()> {
    let mut block = crate::block_with(&[]);
    if let Some(byte) = block.get_mut(at) {
        *byte = value;
    }
    print_line(
        rt,
        "setup, yes/no byte",
        &[at as u64, value.into()],
        phase_after(Phase::FRESH, &block),
    )
}

// For each word the last accepted and the first refused: allowed-0 outside allowed-1, fixed-0 outside fixed-1, a set bit outside allowed-1, a cleared
// bit in allowed-0.
fn words_alone(rt: &impl Print) -> io::Result<()> {
    for word in [
        (Layout::TRUE_PINBASED_CTLS, 0x0000_001F_0000_0016),
        (Layout::TRUE_PINBASED_CTLS, 0x0000_001F_0000_0036),
        (Layout::TRUE_PINBASED_CTLS, 0x0000_001E_0000_0016),
        (Layout::TRUE_PROCBASED_CTLS, 0x9601_6172_0400_6172),
        (Layout::TRUE_PROCBASED_CTLS, 0x9201_6172_0400_6172),
        (Layout::TRUE_PROCBASED_CTLS, 0x8601_6172_0400_6172),
        (Layout::TRUE_PROCBASED_CTLS, 0xFFF9_FFFE_0400_E172),
        (Layout::PROCBASED_CTLS2, 0x0000_0082_0000_0082),
        (Layout::PROCBASED_CTLS2, 0x0000_0082_0000_0083),
        (Layout::PROCBASED_CTLS2, 0x0000_0080_0000_0000),
        (Layout::TRUE_EXIT_CTLS, 0x003F_EFFB_0003_6DFB),
        (Layout::TRUE_EXIT_CTLS, 0x003F_EFF9_0003_6DFB),
        (Layout::TRUE_EXIT_CTLS, 0x003B_EFFB_0003_6DFB),
        (Layout::TRUE_ENTRY_CTLS, 0x0000_D1FB_0000_11FB),
        (Layout::TRUE_ENTRY_CTLS, 0x0000_C1FB_0000_11FB),
        (Layout::TRUE_ENTRY_CTLS, 0x0000_91FB_0000_11FB),
        (Layout::CR0_FIXED1, 0x8000_0021),
        (Layout::CR0_FIXED1, 0x8000_0020),
        (Layout::CR4_FIXED1, 0x2000),
        (Layout::CR4_FIXED1, 0x1FFF),
    ] {
        setup(rt, Phase::FRESH, word, word)?;
    }
    Ok(())
}

// 1 before 6; 6 of the last word before 8 of the first; 8 of pin before 9 of primary; 9 of primary before 8 of secondary.
fn order(rt: &impl Print) -> io::Result<()> {
    let no_cr4 = (Layout::CR4_FIXED1, 0);
    let cr4_of_vmxe = (Layout::CR4_FIXED1, 0x2000);
    let refused_pin = (Layout::TRUE_PINBASED_CTLS, 0x0000_001E_0000_0016);
    let refused_primary = (Layout::TRUE_PROCBASED_CTLS, 0xFFF9_FFFE_0400_E172);
    setup(rt, Phase::READY, cr4_of_vmxe, cr4_of_vmxe)?;
    setup(rt, Phase::ENDED, no_cr4, no_cr4)?;
    setup(rt, Phase::FRESH, refused_pin, no_cr4)?;
    setup(rt, Phase::FRESH, refused_pin, refused_primary)?;
    setup(
        rt,
        Phase::FRESH,
        refused_primary,
        (Layout::PROCBASED_CTLS2, 0),
    )
}

pub fn setups(rt: &impl Print) -> io::Result<()> {
    words_alone(rt)?;
    order(rt)?;
    for at in [Layout::RDTSCP, Layout::INVPCID, Layout::XSAVES] {
        flag(rt, at, 1)?;
        flag(rt, at, 2)?;
    }
    Ok(())
}
