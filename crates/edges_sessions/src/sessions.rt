// Records, the queue, entries and APIC values.
use host_calls::HeldSession;
use record::Record;
use record::words::Stored;
use replay::{answered, print_line};
use std::io;
use vcpu_session::Phase;
use x86_vcpu::session::{vcpu_apic_value, vcpu_inject_interrupt, vcpu_queue_event};

const INTERRUPTIBILITY: u64 = 0x4824;

const RFLAGS: u64 = 0x6820;

// The indices of RAX and RDX.
const RAX: u64 = 0;

const RDX: u64 = 2;

// ---- Which bytes are a record.

pub fn records(rt: &impl Print) -> io::Result<()> {
    for (phase, launched, waiting, entries, held) in [
        (0, 0, 0, 0, 0),
        (4, 0, 0, 0, 0),
        (5, 0, 0, 0, 0),
        (0, 1, 0, 0, 0),
        (0, 2, 0, 0, 0),
        (0, 0, 64, 0, 0),
        (0, 0, 65, 0, 0),
        (0, 0, 0, 7, 7),
        (0, 0, 0, 7, 8),
        (0, 0, 0, 0xFFFF_FFFF, 0xFFFF_FFFF),
    ] {
        let mut session = HeldSession::in_phase(phase);
        session.bytes[Record::LAUNCHED] = launched;
        session.bytes[Record::WAITING] = waiting;
        u32::put(&mut session.bytes, Record::ENTRIES, entries);
        u32::put(&mut session.bytes, Record::HELD, held);
        let bytes = [phase, launched, waiting].map(u64::from);
        let arguments = [bytes[0], bytes[1], bytes[2], entries.into(), held.into()];
        let answer = crate::counts_of(&session).map(|c| {
            [
                c.phase.into(),
                c.launched.into(),
                c.waiting.into(),
                c.entries.into(),
                c.held.into(),
            ]
        });
        print_line(rt, "get_counts", &arguments, answer)?;
    }
    Ok(())
}

// ---- The queue: how many events wait is printed.

fn with_waiting(phase: u8, waiting: u8) -> HeldSession {
    let mut session = HeldSession::in_phase(phase);
    session.bytes[Record::WAITING] = waiting;
    session
}

fn waiting_after(refusal: u32, session: &HeldSession) -> Result<[u64; 1], u32> {
    answered(refusal, ())?;
    Ok([crate::counts_of(session)?.waiting.into()])
}

pub fn queued(rt: &impl Print) -> io::Result<()> {
    for (phase, waiting, vector, coded) in [
        (0, 0, 0, 0),
        (0, 0, 255, 1),
        (0, 0, 255, 2),
        (3, 0, 32, 0),
        (4, 0, 32, 0),
        (0, 63, 32, 0),
        (0, 64, 32, 0),
        (4, 64, 32, 0),
    ] {
        let mut session = with_waiting(phase, waiting);
        let refusal = vcpu_queue_event(&mut session.bytes, vector, coded, 0);
        let arguments = [phase, waiting, vector, coded].map(u64::from);
        print_line(
            rt,
            "queue_event",
            &arguments,
            waiting_after(refusal, &session),
        )?;
    }
    Ok(())
}

pub fn injected(rt: &impl Print) -> io::Result<()> {
    for (phase, waiting, vector) in [
        (0, 0, 0),
        (0, 0, 1),
        (0, 0, 255),
        (0, 0, 256),
        (0, 0, 0x1_0000_0001),
        (3, 0, 32),
        (4, 0, 0),
        (0, 63, 32),
        (0, 64, 32),
        (0, 64, 0),
    ] {
        let mut session = with_waiting(phase, waiting);
        let refusal = vcpu_inject_interrupt(&mut session.bytes, vector);
        print_line(
            rt,
            "inject_interrupt",
            &[phase.into(), waiting.into(), vector],
            waiting_after(refusal, &session),
        )?;
    }
    Ok(())
}

// ---- Entry.

// Resumed, what was done with the event, the entries and the held ones.
fn entered(session: &mut HeldSession) -> Result<[u64; 4], u32> {
    let entry = session.enter()?;
    let after = crate::counts_of(session)?;
    Ok([
        entry.resumed.into(),
        entry.injection.into(),
        after.entries.into(),
        after.held.into(),
    ])
}

fn empty_entry(rt: &impl Print, launched: u8) -> io::Result<()> {
    let mut session = HeldSession::in_phase(Phase::READY);
    session.bytes[Record::LAUNCHED] = launched;
    print_line(
        rt,
        "entry, none waiting",
        &[launched.into()],
        entered(&mut session),
    )
}

// One event waits.
pub fn entries(rt: &impl Print) -> io::Result<()> {
    empty_entry(rt, 0)?;
    empty_entry(rt, 1)?;
    for (phase, entries, vector, rflags, interruptibility) in [
        (0, 0, 31, 0, 0),
        (1, 0, 31, 0, 0),
        (2, 0, 31, 0, 0),
        (3, 0, 31, 0, 0),
        (4, 0, 31, 0, 0),
        (1, 0, 32, 0, 0),
        (1, 0, 32, 0x200, 0),
        (1, 0, 32, 0xFFFF_FFFF_FFFF_FDFF, 0),
        (1, 0, 32, 0x200, 1),
        (1, 0, 31, 0x200, 1),
        (1, 0xFFFF_FFFE, 31, 0, 0),
        (1, 0xFFFF_FFFF, 31, 0, 0),
        (0, 0xFFFF_FFFF, 31, 0, 0),
    ] {
        let mut session = HeldSession::in_phase(Phase::FRESH);
        vcpu_queue_event(&mut session.bytes, vector, 0, 0);
        let _ = session.write_field(RFLAGS, rflags);
        let _ = session.write_field(INTERRUPTIBILITY, interruptibility);
        session.bytes[Record::PHASE] = phase;
        u32::put(&mut session.bytes, Record::ENTRIES, entries);
        let arguments = [
            phase.into(),
            entries.into(),
            vector.into(),
            rflags,
            interruptibility,
        ];
        print_line(rt, "entry", &arguments, entered(&mut session))?;
    }
    Ok(())
}

// ---- The APIC value: the phase, RAX and RDX are printed.

fn with_apic_value(session: &mut HeldSession, value: u64) -> Result<[u64; 3], u32> {
    answered(vcpu_apic_value(&mut session.bytes, value), ())?;
    Ok([
        crate::counts_of(session)?.phase.into(),
        session.read_register(RAX)?,
        session.read_register(RDX)?,
    ])
}

pub fn apic_values(rt: &impl Print) -> io::Result<()> {
    let value = 0x1122_3344_5566_7788;
    for phase in [Phase::RUNNING, Phase::WAITING, Phase::ENDED] {
        let mut session = HeldSession::in_phase(phase);
        let answer = with_apic_value(&mut session, value);
        print_line(rt, "apic_value", &[phase.into(), value], answer)?;
    }
    Ok(())
}
