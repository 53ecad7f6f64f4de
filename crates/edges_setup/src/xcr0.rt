// XCR0: setup brings the supported bits, and the report of an XSETBV the value.
use blocks::report::Layout;
use blocks::setup;
use definitions::exit_reason::VmxExitReason;
use host_calls::{HeldSession, report_block};
use record::Record;
use record::words::Stored;
use replay::{answered, print_line};
use std::io;
use vcpu_session::Phase;
use x86_vcpu::readings::vcpu_get_xcr0;

const GUEST_RIP: u64 = 0x681E;

fn xcr0_of(session: &HeldSession) -> Result<u64, u32> {
    let mut xcr0: u64 = 0;
    let refusal = vcpu_get_xcr0(&session.bytes, &mut xcr0);
    answered(refusal, xcr0)
}

// Of a record in a phase that holds this value.
fn reading(rt: &impl Print, phase: u8, value: u64) -> io::Result<()> {
    let mut session = HeldSession::in_phase(phase);
    u64::put(&mut session.bytes, Record::XCR0, value);
    print_line(
        rt,
        "get_xcr0",
        &[phase.into(), value],
        xcr0_of(&session).map(|xcr0| [xcr0]),
    )
}

// What the guest has at an XSETBV.
#[derive(Clone, Copy)]
struct Xsetbv {
    rdx: u64,
    rax: u64,
    rcx: u64,
    rip: u64,
}

impl Xsetbv {
    // EDX:EAX alone.
    fn of_value(value: u64) -> Self {
        Xsetbv {
            rdx: value >> 32,
            rax: value % 0x1_0000_0000,
            rcx: 0,
            rip: 0x1000,
        }
    }

    // The report, with a length that the instruction never has.
    fn block(self) -> [u8; Layout::LENGTH] {
        let mut block = report_block(VmxExitReason::XSETBV as u32);
        u64::put(&mut block, Layout::REGS, self.rax);
        u64::put(&mut block, Layout::REGS + 8, self.rcx);
        u64::put(&mut block, Layout::REGS + 16, self.rdx);
        u64::put(&mut block, Layout::RIP, self.rip);
        u64::put(&mut block, Layout::CR0, 0x30);
        u64::put(&mut block, Layout::CR4, 0x2000);
        u32::put(&mut block, Layout::INSTRUCTION_LENGTH, 9);
        block
    }
}

// The answer's number, XCR0 and RIP after a report.
fn reported(session: &mut HeldSession, block: &[u8; Layout::LENGTH]) -> Result<[u64; 3], u32> {
    let answer = session.report(block)?;
    Ok([answer[0], xcr0_of(session)?, session.read_field(GUEST_RIP)?])
}

// A session that is set up with these supported bits, and entered.
fn print_xsetbv(rt: &impl Print, supported: u64, guest: Xsetbv) -> io::Result<()> {
    let mut session = HeldSession::in_phase(Phase::FRESH);
    let block = crate::block_with(&[(setup::Layout::XCR0_SUPPORTED, supported)]);
    let _ = crate::set_up(&mut session, &block);
    let _ = session.enter();
    print_line(
        rt,
        "exit_report, XSETBV",
        &[supported, guest.rdx, guest.rax, guest.rcx, guest.rip],
        reported(&mut session, &guest.block()),
    )
}

fn values(rt: &impl Print) -> io::Result<()> {
    for (supported, xcr0) in [
        // x87, SSE and AVX
        (7, 1),
        (7, 3),
        (7, 7),
        (7, 0),
        (7, 2),
        (7, 5),
        (7, 6),
        // MPX
        (7, 0xF),
        (0x1F, 0x19),
        (0x1F, 0x1F),
        (0x1F, 0x9),
        (0x1F, 0x11),
        // AVX-512
        (0xE7, 0xE7),
        (0xE7, 0xE3),
        (0xE7, 0x27),
        (0xE7, 0xC7),
        (0xE7, 0xA7),
        (0xE7, 0x67),
        // AMX
        (0x6_0007, 0x6_0001),
        (0x6_0007, 0x2_0001),
        (0x6_0007, 0x4_0001),
    ] {
        print_xsetbv(rt, supported, Xsetbv::of_value(xcr0))?;
    }
    Ok(())
}

fn supported_alone(rt: &impl Print) -> io::Result<()> {
    for (supported, xcr0) in [
        (0x207, 0x201),
        (7, 0x201),
        (0xFFFF_FFFF_FFFF_FFFF, 0x101),
        (0xFFFF_FFFF_FFFF_FFFF, 0x8000_0000_0000_0001),
        (0xFFFF_FFFF_FFFF_FFFF, 0xFFFF_FFFF_FFFF_FFFF),
        (6, 7),
        (6, 1),
        (0, 1),
    ] {
        print_xsetbv(rt, supported, Xsetbv::of_value(xcr0))?;
    }
    Ok(())
}

fn registers_and_rip(rt: &impl Print) -> io::Result<()> {
    for (rdx, rax, rcx, rip) in [
        (0, 3, 0x1_0000_0000, 0x1000),
        (0, 3, 1, 0x1000),
        (0, 2, 1, 0x1000),
        (0xFFFF_FFFF_0000_0000, 0xFFFF_FFFF_0000_0003, 0, 0x1000),
        (0, 3, 0, 0xFFFF_FFFF_FFFF_FFFC),
        (0, 3, 0, 0xFFFF_FFFF_FFFF_FFFD),
        (0, 2, 0, 0xFFFF_FFFF_FFFF_FFFD),
    ] {
        print_xsetbv(rt, 7, Xsetbv { rdx, rax, rcx, rip })?;
    }
    Ok(())
}

pub fn xcr0(rt: &impl Print) -> io::Result<()> {
    for (phase, value) in [(0, 0), (0, 0xFFFF_FFFF_FFFF_FFFE), (4, 2), (5, 1)] {
        reading(rt, phase, value)?;
    }
    values(rt)?;
    supported_alone(rt)?;
    registers_and_rip(rt)
}
