// What an entry writes for an event: the entry interruption field, the error code and the instruction length are printed.
use blocks::report::Layout;
use definitions::exit_reason::VmxExitReason;
use host_calls::{HeldSession, report_block};
use record::words::Stored;
use replay::print_line;
use std::io;
use vcpu_session::Phase;
use x86_vcpu::session::vcpu_queue_event;

const VMENTRY_INTERRUPTION_INFO_FIELD: u64 = 0x4016;

const VMENTRY_EXCEPTION_ERR_CODE: u64 = 0x4018;

const VMENTRY_INSTRUCTION_LEN: u64 = 0x401A;

const CR0: u64 = 0x6800;

const CR0_READ_SHADOW: u64 = 0x6004;

// A session after an exit with this CR0, error code 6 and instruction length 3. The event's own fields have 9 and 5, and the read shadow is not CR0.
fn exited(cr0: u64) -> HeldSession {
    let mut block = report_block(VmxExitReason::HLT as u32);
    u64::put(&mut block, Layout::CR0, cr0);
    u32::put(&mut block, Layout::INSTRUCTION_LENGTH, 3);
    u32::put(&mut block, Layout::ERROR_CODE, 6);
    let mut session = HeldSession::in_phase(Phase::RUNNING);
    let _ = session.report(&block);
    let _ = session.write_field(CR0_READ_SHADOW, !cr0);
    let _ = session.write_field(VMENTRY_EXCEPTION_ERR_CODE, 9);
    let _ = session.write_field(VMENTRY_INSTRUCTION_LEN, 5);
    session
}

// Enters, and reads the fields.
fn fields_after_entry(session: &mut HeldSession) -> Result<[u64; 3], u32> {
    session.enter()?;
    Ok([
        session.read_field(VMENTRY_INTERRUPTION_INFO_FIELD)?,
        session.read_field(VMENTRY_EXCEPTION_ERR_CODE)?,
        session.read_field(VMENTRY_INSTRUCTION_LEN)?,
    ])
}

// An event, with code 2 where one is given.
fn event(rt: &impl Print, vector: u8, cr0: u64, coded: u8) -> io::Result<()> {
    let mut session = exited(cr0);
    vcpu_queue_event(&mut session.bytes, vector, coded, 2);
    let fields = fields_after_entry(&mut session);
    print_line(
        rt,
        "entry, event",
        &[vector.into(), cr0, coded.into()],
        fields,
    )
}

// A page fault with a code, where CR0 is written after the event is queued.
fn rewritten(rt: &impl Print, before: u64, after: u64) -> io::Result<()> {
    let mut session = exited(before);
    vcpu_queue_event(&mut session.bytes, 14, 1, 2);
    let _ = session.write_field(CR0, after);
    let fields = fields_after_entry(&mut session);
    print_line(rt, "entry, CR0 written", &[before, after], fields)
}

// With PE, and then without.
pub fn events(rt: &impl Print) -> io::Result<()> {
    for (vector, cr0, coded) in [
        (1, 1, 0),
        (2, 1, 0),
        (3, 1, 0),
        (4, 1, 1),
        (8, 1, 0),
        (9, 1, 1),
        (14, 1, 1),
        (17, 1, 1),
        (20, 1, 1),
        (21, 1, 0),
        (21, 1, 1),
        (22, 1, 1),
        (31, 0xFFFF_FFFF_FFFF_FFFF, 1),
        (1, 0, 0),
        (3, 0, 0),
        (8, 0, 0),
        (10, 0, 1),
        (11, 0, 1),
        (12, 0, 0),
        (13, 0, 1),
        (14, 0, 1),
        (14, 0xFFFF_FFFF_FFFF_FFFE, 1),
        (17, 0, 1),
        (21, 0, 0),
        (21, 0, 1),
    ] {
        event(rt, vector, cr0, coded)?;
    }
    rewritten(rt, 0, 1)?;
    rewritten(rt, 1, 0)
}
