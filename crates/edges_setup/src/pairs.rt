// The pairs used of pin, primary, exit and entry: those of the TRUE words where bit 55 of IA32_VMX_BASIC is set, of the plain words where it is clear.
use crate::Word;
use blocks::setup::Layout;
use host_calls::HeldSession;
use record::Record;
use record::words::Stored;
use replay::print_line;
use std::io;
use vcpu_session::Phase;

// IA32_VMX_BASIC with bit 55, and without.
const WITH_TRUE: u64 = 0x00DA_0400_0000_0004;

const WITHOUT_TRUE: u64 = 0x005A_0400_0000_0004;

// A plain primary word that demands none of bits 15, 16, 19 and 20, which setup clears.
const OPEN: Word = (Layout::PROCBASED_CTLS, 0xFFF9_FFFE_0400_6172);

// The TRUE primary word is 0, so that what is kept comes from 0x482.
const NO_TRUE_PRIMARY: Word = (Layout::TRUE_PROCBASED_CTLS, 0);

// The control words by their encodings.
const PINBASED_EXEC_CONTROLS: u64 = 0x4000;

const PRIMARY_PROCBASED_EXEC_CONTROLS: u64 = 0x4002;

const SECONDARY_PROCBASED_EXEC_CONTROLS: u64 = 0x401E;

const VMEXIT_CONTROLS: u64 = 0x400C;

const VMENTRY_CONTROLS: u64 = 0x4012;

// Sets a session up in a phase: the five pairs, each as the MSR that has it (pin, primary, secondary, exit, entry), and the five control words.
fn words_after(phase: u8, block: &[u8; Layout::LENGTH]) -> Result<[u64; 10], u32> {
    let mut session = HeldSession::in_phase(phase);
    crate::set_up(&mut session, block)?;
    Ok([
        u64::get(&session.bytes, Record::PAIRS),
        u64::get(&session.bytes, Record::PAIRS + 8),
        u64::get(&session.bytes, Record::PAIRS + 16),
        u64::get(&session.bytes, Record::PAIRS + 24),
        u64::get(&session.bytes, Record::PAIRS + 32),
        session.read_field(PINBASED_EXEC_CONTROLS)?,
        session.read_field(PRIMARY_PROCBASED_EXEC_CONTROLS)?,
        session.read_field(SECONDARY_PROCBASED_EXEC_CONTROLS)?,
        session.read_field(VMEXIT_CONTROLS)?,
        session.read_field(VMENTRY_CONTROLS)?,
    ])
}

// IA32_VMX_BASIC and two more words of the block changed.
fn setup(rt: &impl Print, phase: u8, basic: u64, first: Word, second: Word) -> io::Result<()> {
    let block = crate::block_with(&[(Layout::VMX_BASIC, basic), first, second]);
    print_line(
        rt,
        "setup, words",
        &[
            phase.into(),
            basic,
            first.0 as u64,
            first.1,
            second.0 as u64,
            second.1,
        ],
        words_after(phase, &block),
    )
}

// One word changed.
fn word(rt: &impl Print, basic: u64, changed: Word) -> io::Result<()> {
    setup(rt, Phase::FRESH, basic, changed, changed)
}

// The usual words.
fn alone(rt: &impl Print, basic: u64) -> io::Result<()> {
    word(rt, basic, (Layout::VMX_BASIC, basic))
}

// A plain primary word that setup accepts, and one word changed.
fn open(rt: &impl Print, basic: u64, changed: Word) -> io::Result<()> {
    setup(rt, Phase::FRESH, basic, OPEN, changed)
}

// Bit 55 alone counts: the usual words, and a plain primary word that setup accepts.
fn basic(rt: &impl Print) -> io::Result<()> {
    alone(rt, WITH_TRUE)?;
    alone(rt, WITHOUT_TRUE)?;
    open(rt, WITHOUT_TRUE, NO_TRUE_PRIMARY)?;
    for basic in [0x0080_0000_0000_0000, 0xFFFF_FFFF_FFFF_FFFF] {
        alone(rt, basic)?;
    }
    for basic in [
        0,
        0x0040_0000_0000_0000,
        0x0100_0000_0000_0000,
        0x0140_0000_0000_0000,
        0xFF7F_FFFF_FFFF_FFFF,
    ] {
        alone(rt, basic)?;
        open(rt, basic, NO_TRUE_PRIMARY)?;
    }
    Ok(())
}

// With bit 55 set: a TRUE word that contradicts itself is 6, a plain one is none, and gives its low half as the old word.
fn with_true(rt: &impl Print) -> io::Result<()> {
    for changed in [
        (Layout::TRUE_PINBASED_CTLS, 1),
        (Layout::TRUE_PROCBASED_CTLS, 1),
        (Layout::PROCBASED_CTLS2, 1),
        (Layout::TRUE_EXIT_CTLS, 1),
        (Layout::TRUE_ENTRY_CTLS, 1),
        (Layout::PINBASED_CTLS, 1),
        (Layout::PROCBASED_CTLS, 1),
        (Layout::EXIT_CTLS, 1),
        (Layout::ENTRY_CTLS, 1),
        (Layout::PINBASED_CTLS, 0xFFFF_FFFF),
        (Layout::PROCBASED_CTLS, 0xFFFF_FFFF),
        (Layout::EXIT_CTLS, 0xFFFF_FFFF),
        (Layout::ENTRY_CTLS, 0xFFFF_FFFF),
        (Layout::PINBASED_CTLS, 0xFFFF_FFFF_0000_0000),
    ] {
        word(rt, WITH_TRUE, changed)?;
    }
    Ok(())
}

// With bit 55 clear: a plain word that contradicts itself is 6, a TRUE one is none.
fn without_true(rt: &impl Print) -> io::Result<()> {
    for at in [
        Layout::PINBASED_CTLS,
        Layout::PROCBASED_CTLS,
        Layout::PROCBASED_CTLS2,
        Layout::EXIT_CTLS,
        Layout::ENTRY_CTLS,
        Layout::TRUE_PINBASED_CTLS,
    ] {
        word(rt, WITHOUT_TRUE, (at, 1))?;
    }
    for changed in [
        (Layout::TRUE_PINBASED_CTLS, 1),
        (Layout::TRUE_PROCBASED_CTLS, 1),
        (Layout::TRUE_EXIT_CTLS, 1),
        (Layout::TRUE_ENTRY_CTLS, 1),
        (Layout::PINBASED_CTLS, 0x0000_0079_0000_0070),
        (Layout::EXIT_CTLS, 0x007F_FFFF_0003_6DFF),
        (Layout::ENTRY_CTLS, 0x0000_D1FF_0000_11FF),
    ] {
        open(rt, WITHOUT_TRUE, changed)?;
    }
    Ok(())
}

// The bits that setup clears: each demanded by the plain word, and by the TRUE word.
fn demanded(rt: &impl Print) -> io::Result<()> {
    for value in [
        0xFFF9_FFFE_0400_E172,
        0xFFF9_FFFE_0401_6172,
        0xFFF9_FFFE_0408_6172,
        0xFFF9_FFFE_0410_6172,
    ] {
        word(rt, WITHOUT_TRUE, (Layout::PROCBASED_CTLS, value))?;
    }
    for value in [
        0xFFF9_FFFE_0401_6172,
        0xFFF9_FFFE_0408_6172,
        0xFFF9_FFFE_0410_6172,
    ] {
        word(rt, WITH_TRUE, (Layout::TRUE_PROCBASED_CTLS, value))?;
    }
    open(
        rt,
        WITHOUT_TRUE,
        (Layout::TRUE_PROCBASED_CTLS, 0xFFF9_FFFE_0419_E172),
    )
}

// With bit 55 clear: 8 of each plain word, and the order. 8 of pin and of primary before 9 of primary, that before 8 of secondary; 6 of the last word before 8 of the first; 1 before 6.
fn order(rt: &impl Print) -> io::Result<()> {
    let refused_pin = (Layout::PINBASED_CTLS, 0x0000_007E_0000_0016);
    for changed in [
        refused_pin,
        (Layout::PROCBASED_CTLS, 0x7FF9_FFFE_0401_E172),
        (Layout::PROCBASED_CTLS2, 0),
    ] {
        word(rt, WITHOUT_TRUE, changed)?;
    }
    for changed in [
        (Layout::PROCBASED_CTLS2, 0),
        (Layout::EXIT_CTLS, 0x01FF_FDFF_0003_6DFF),
        (Layout::ENTRY_CTLS, 0x0000_B3FF_0000_11FF),
    ] {
        open(rt, WITHOUT_TRUE, changed)?;
    }
    let impossible_pin = (Layout::PINBASED_CTLS, 1);
    setup(
        rt,
        Phase::FRESH,
        WITHOUT_TRUE,
        refused_pin,
        (Layout::ENTRY_CTLS, 1),
    )?;
    setup(
        rt,
        Phase::FRESH,
        WITHOUT_TRUE,
        refused_pin,
        (Layout::CR4_FIXED1, 0),
    )?;
    setup(
        rt,
        Phase::READY,
        WITHOUT_TRUE,
        impossible_pin,
        impossible_pin,
    )
}

pub fn pairs(rt: &impl Print) -> io::Result<()> {
    basic(rt)?;
    with_true(rt)?;
    without_true(rt)?;
    demanded(rt)?;
    order(rt)
}
