// Exit reports. The phase after an accepted one is printed.
use blocks::report::Layout;
use definitions::exit_reason::VmxExitReason as Reason;
use host_calls::{HeldSession, report_block};
use record::Record;
use record::words::Stored;
use replay::print_line;
use std::io;
use vcpu_session::Phase;

const CR0_GUEST_HOST_MASK: u64 = 0x6000;

const CR4_GUEST_HOST_MASK: u64 = 0x6002;

// Above the reasons that a report may have.
const UNKNOWN: u32 = 65;

// Bit 31 of a reason, and an invalid guest state.
const FAILED_ENTRY: u32 = 0x8000_0021;

fn phase_after(session: &mut HeldSession, block: &[u8]) -> Result<[u64; 1], u32> {
    session.report(block)?;
    Ok([crate::counts_of(session)?.phase.into()])
}

// A report to a session in a phase.
fn reason(rt: &impl Print, phase: u8, reason: u32) -> io::Result<()> {
    let mut session = HeldSession::in_phase(phase);
    let after = phase_after(&mut session, &report_block(reason));
    print_line(rt, "exit_report", &[phase.into(), reason.into()], after)
}

pub fn reasons(rt: &impl Print) -> io::Result<()> {
    reason(rt, Phase::READY, Reason::CPUID as u32)?;
    reason(rt, Phase::RUNNING, Reason::CPUID as u32)?;
    reason(rt, Phase::WAITING, Reason::CPUID as u32)?;
    reason(rt, Phase::READY, UNKNOWN)?;
    for number in [
        34,
        35,
        36,
        37,
        38,
        39,
        41,
        42,
        43,
        64,
        UNKNOWN,
        0xFFFF,
        0x7FFF_0040,
        0x8000_0020,
        FAILED_ENTRY,
        0x8000_0022,
        0x8000_0023,
        0x8000_0028,
        0x8000_0029,
        0x8000_002A,
        44,
    ] {
        reason(rt, Phase::RUNNING, number)?;
    }
    Ok(())
}

// A report with interruption information.
pub fn interruptions(rt: &impl Print) -> io::Result<()> {
    for (reason, information) in [
        (Reason::EXTERNAL_INTERRUPT, 0x8000_0020),
        (Reason::EXTERNAL_INTERRUPT, 0x0000_0020),
        (Reason::EXTERNAL_INTERRUPT, 0x8000_0120),
        (Reason::EXTERNAL_INTERRUPT, 0x8000_0220),
        (Reason::CPUID, 0),
    ] {
        let mut block = report_block(reason as u32);
        u32::put(&mut block, Layout::INTERRUPTION, information);
        let mut session = HeldSession::in_phase(Phase::RUNNING);
        print_line(
            rt,
            "exit_report, interruption",
            &[reason as u64, information.into()],
            phase_after(&mut session, &block),
        )?;
    }
    Ok(())
}

// A report with a qualification, RCX and RIP.
fn qualification(
    rt: &impl Print,
    reason: Reason,
    qualification: u64,
    rcx: u64,
    rip: u64,
) -> io::Result<()> {
    let mut block = report_block(reason as u32);
    u64::put(&mut block, Layout::QUALIFICATION, qualification);
    u64::put(&mut block, Layout::REGS + 8, rcx);
    u64::put(&mut block, Layout::RIP, rip);
    let mut session = HeldSession::in_phase(Phase::RUNNING);
    print_line(
        rt,
        "exit_report, qualification",
        &[reason as u64, qualification, rcx, rip],
        phase_after(&mut session, &block),
    )
}

pub fn qualifications(rt: &impl Print) -> io::Result<()> {
    for (reason, word, rcx, rip) in [
        (Reason::CR_ACCESS, 0, 0, 0),
        (Reason::CR_ACCESS, 3, 0, 0),
        (Reason::CR_ACCESS, 4, 0, 0),
        (Reason::CR_ACCESS, 8, 0, 0),
        (Reason::CR_ACCESS, 0x10, 0, 0),
        (Reason::CR_ACCESS, 0x14, 0, 0),
        (Reason::CR_ACCESS, 0x20, 0, 0),
        (Reason::CR_ACCESS, 0x30, 0, 0),
        (Reason::XSETBV, 0, 0, 0),
        (Reason::XSETBV, 0, 1, 0),
        (Reason::XSETBV, 0, 0x1_0000_0000, 0),
        (Reason::APIC_ACCESS, 0, 0, 0xFFFF_FFFF_FFFF_FFFF),
        (Reason::CPUID, 0, 0, 0xFFFF_FFFF_FFFF_FFFD),
        (Reason::CPUID, 0, 0, 0xFFFF_FFFF_FFFF_FFFE),
        (Reason::CR_ACCESS, 0, 0, 0xFFFF_FFFF_FFFF_FFFC),
        (Reason::CR_ACCESS, 0, 0, 0xFFFF_FFFF_FFFF_FFFD),
        (Reason::INTERRUPT_WINDOW, 0, 0, 0xFFFF_FFFF_FFFF_FFFF),
        (Reason::MSR_READ, 0, 0x7FF, 0),
        (Reason::MSR_READ, 0, 0x800, 0),
        (Reason::MSR_READ, 0, 0x8FF, 0),
        (Reason::MSR_READ, 0, 0x900, 0),
    ] {
        qualification(rt, reason, word, rcx, rip)?;
    }
    Ok(())
}

// Bit 0 of CR0 and of CR4 is under its guest/host mask, and 0 in the session.
pub fn masks(rt: &impl Print) -> io::Result<()> {
    for (reason, cr0, cr4) in [
        (Reason::CPUID as u32, 0, 0),
        (
            Reason::CPUID as u32,
            0xFFFF_FFFF_FFFF_FFFE,
            0xFFFF_FFFF_FFFF_FFFE,
        ),
        (Reason::CPUID as u32, 1, 0),
        (Reason::CPUID as u32, 0, 1),
        (FAILED_ENTRY, 1, 1),
        (UNKNOWN, 1, 1),
        (Reason::APIC_ACCESS as u32, 1, 0),
    ] {
        let mut session = HeldSession::in_phase(Phase::RUNNING);
        let _ = session.write_field(CR0_GUEST_HOST_MASK, 1);
        let _ = session.write_field(CR4_GUEST_HOST_MASK, 1);
        let mut block = report_block(reason);
        u64::put(&mut block, Layout::CR0, cr0);
        u64::put(&mut block, Layout::CR4, cr4);
        print_line(
            rt,
            "exit_report, masks of bit 0",
            &[reason.into(), cr0, cr4],
            phase_after(&mut session, &block),
        )?;
    }
    Ok(())
}

// A move of RAX to CR0, with EFER and allowed-1 of the entry word.
pub fn moves_to_cr0(rt: &impl Print) -> io::Result<()> {
    for (rax, efer, allowed1, rip) in [
        (0x8000_0000, 0, 0x200, 0),
        (0x8000_0000, 0, 0xFFFF_FDFF, 0),
        (0x8000_0000, 0x400, 0, 0),
        (0x8000_0000, 0x100, 0, 0),
        (0x8000_0000, 0x500, 0, 0),
        (0x7FFF_FFFF, 0, 0, 0),
        (0x8000_0000, 0, 0, 0xFFFF_FFFF_FFFF_FFFF),
    ] {
        let mut session = HeldSession::in_phase(Phase::RUNNING);
        u32::put(&mut session.bytes, Record::PAIRS + 36, allowed1);
        let mut block = report_block(Reason::CR_ACCESS as u32);
        u64::put(&mut block, Layout::REGS, rax);
        u64::put(&mut block, Layout::EFER, efer);
        u64::put(&mut block, Layout::RIP, rip);
        print_line(
            rt,
            "exit_report, move to CR0",
            &[rax, efer, allowed1.into(), rip],
            phase_after(&mut session, &block),
        )?;
    }
    Ok(())
}
