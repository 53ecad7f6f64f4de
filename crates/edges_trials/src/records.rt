// Trials on a record: the lengths of the first and of the second one are printed with the arguments.
use crate::BEFORE;
use blocks::report::Layout;
use definitions::exit_reason::VmxExitReason;
use host_calls::{HeldSession, report_block};
use record::Record;
use record::words::Stored;
use replay::{answered, print_line};
use std::io;
use vcpu_session::Phase;
use x86_vcpu::trial::{vcpu_try_entry, vcpu_try_exit_report};

// Above the reasons that a report may have.
const UNKNOWN: u32 = 65;

// A record of this length, zeros but for the phase.
fn put_phase(bytes: &mut [u8], phase: u8) {
    if let Some(byte) = bytes.get_mut(Record::PHASE) {
        *byte = phase;
    }
}

// ---- Entry: resumed, what is done with the event, and the phase and the low byte of the entries as shown.

fn tried_entry(bytes: &[u8], shown: &mut [u8]) -> Result<[u64; 4], u32> {
    let mut resumed: u8 = 0;
    let mut event: u8 = 0;
    let refusal = vcpu_try_entry(bytes, shown, 0, &mut resumed, &mut event);
    answered(
        refusal,
        [
            resumed.into(),
            event.into(),
            crate::byte_at(shown, Record::PHASE),
            crate::byte_at(shown, Record::ENTRIES),
        ],
    )
}

fn entry(rt: &impl Print, phase: u8, bytes: &mut [u8], shown: &mut [u8]) -> io::Result<()> {
    put_phase(bytes, phase);
    let answer = tried_entry(bytes, shown);
    let arguments = [phase.into(), bytes.len() as u64, shown.len() as u64];
    print_line(rt, "try_entry", &arguments, answer)
}

// The entries are at their end.
fn last_entry(rt: &impl Print, shown: &mut [u8]) -> io::Result<()> {
    let mut session = HeldSession::in_phase(Phase::READY);
    u32::put(&mut session.bytes, Record::ENTRIES, u32::MAX);
    let answer = tried_entry(&session.bytes, shown).map(|_| []);
    print_line(rt, "try_entry, the last", &[shown.len() as u64], answer)
}

pub fn entries(rt: &impl Print) -> io::Result<()> {
    let mut bytes = [0; Record::LENGTH];
    let mut shown = [BEFORE; Record::LENGTH];
    let mut short = [BEFORE; Record::LENGTH - 1];
    let mut long = [BEFORE; Record::LENGTH + 1];
    for phase in 0..=5 {
        entry(rt, phase, &mut bytes, &mut shown)?;
    }
    entry(rt, Phase::READY, &mut bytes, &mut [])?;
    entry(rt, Phase::READY, &mut bytes, &mut short)?;
    entry(rt, Phase::READY, &mut bytes, &mut long)?;
    entry(rt, Phase::FRESH, &mut bytes, &mut short)?;
    entry(rt, 5, &mut bytes, &mut short)?;
    last_entry(rt, &mut shown)?;
    last_entry(rt, &mut short)?;
    let mut less = [0; Record::LENGTH - 1];
    entry(rt, Phase::READY, &mut less, &mut shown)?;
    entry(rt, Phase::READY, &mut less, &mut short)?;
    entry(rt, Phase::READY, &mut [0; Record::LENGTH + 1], &mut long)
}

// ---- Report: the answer's number, and the phase as shown.

fn report(
    rt: &impl Print,
    phase: u8,
    bytes: &mut [u8],
    shown: &mut [u8],
    block: &[u8],
) -> io::Result<()> {
    put_phase(bytes, phase);
    let mut answer = [0; 8];
    let refusal = vcpu_try_exit_report(bytes, shown, block, &mut answer);
    let arguments = [
        phase.into(),
        crate::byte_at(block, Layout::REASON),
        bytes.len() as u64,
        shown.len() as u64,
        block.len() as u64,
    ];
    let results = [answer[0], crate::byte_at(shown, Record::PHASE)];
    print_line(
        rt,
        "try_exit_report",
        &arguments,
        answered(refusal, results),
    )
}

pub fn reports(rt: &impl Print) -> io::Result<()> {
    let mut bytes = [0; Record::LENGTH];
    let mut shown = [BEFORE; Record::LENGTH];
    let usual = report_block(VmxExitReason::CPUID as u32);
    let halt = report_block(VmxExitReason::HLT as u32);
    let unknown = report_block(UNKNOWN);
    report(rt, Phase::READY, &mut bytes, &mut shown, &usual)?;
    report(rt, Phase::RUNNING, &mut bytes, &mut shown, &usual)?;
    report(rt, Phase::RUNNING, &mut bytes, &mut shown, &halt)?;
    report(rt, Phase::WAITING, &mut bytes, &mut shown, &usual)?;
    report(rt, Phase::RUNNING, &mut bytes, &mut shown, &unknown)?;
    // A second record of another length, beside numbers of the report.
    let mut short = [BEFORE; Record::LENGTH - 1];
    report(rt, Phase::RUNNING, &mut bytes, &mut short, &usual)?;
    report(
        rt,
        Phase::RUNNING,
        &mut bytes,
        &mut [BEFORE; Record::LENGTH + 1],
        &usual,
    )?;
    report(rt, Phase::READY, &mut bytes, &mut short, &usual)?;
    report(rt, Phase::RUNNING, &mut bytes, &mut short, &unknown)?;
    // A block and a record of another length.
    let mut less = [0; Record::LENGTH - 1];
    report(
        rt,
        Phase::RUNNING,
        &mut bytes,
        &mut shown,
        &[0; Layout::LENGTH - 1],
    )?;
    report(
        rt,
        Phase::RUNNING,
        &mut bytes,
        &mut short,
        &[0; Layout::LENGTH - 1],
    )?;
    report(rt, Phase::RUNNING, &mut less, &mut short, &usual)?;
    report(rt, Phase::RUNNING, &mut less, &mut shown, &usual)
}
