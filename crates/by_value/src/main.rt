// Makes each call on a session twice: exported, on a record, and by value. Prints what each answers, and whether the record holds the session that the call by value gives back.
#![tactic(auto)]

use blocks::{report, setup};
use definitions::Refusal;
use definitions::exit_reason::VmxExitReason;
use host_calls::{Frames, report_block};
use record::Record;
use record::words::Stored;
use std::io;
use vcpu_events::Event;
use vcpu_session::Session;
use vmcs::names::VmcsControl32;
use x86_vcpu::report::vcpu_exit_report;
use x86_vcpu::session::{
    vcpu_apic_value, vcpu_entry, vcpu_inject_interrupt, vcpu_new, vcpu_queue_event,
    vcpu_set_reg_of_index, vcpu_write_field,
};

// ---- A processor that permits all that setup asks for, and what its exits report.

// Allowed-1 of every bit, allowed-0 of none.
const ANY: u64 = 0xFFFF_FFFF_0000_0000;

// Bits 1, 2 and 4 are always 1, and bits 0 to 6 may be.
const PIN: u64 = 0x7F_0000_0016;

// Bit 55, by which the TRUE words are used.
const VMX_BASIC: u64 = 0x00DA_0400_0000_0004;

fn setup_block() -> [u8; setup::Layout::LENGTH] {
    let mut block = [0; setup::Layout::LENGTH];
    u64::put(&mut block, setup::Layout::VMX_BASIC, VMX_BASIC);
    u64::put(&mut block, setup::Layout::TRUE_PINBASED_CTLS, PIN);
    u64::put(&mut block, setup::Layout::TRUE_PROCBASED_CTLS, ANY);
    u64::put(&mut block, setup::Layout::PROCBASED_CTLS2, ANY);
    u64::put(&mut block, setup::Layout::TRUE_EXIT_CTLS, ANY);
    u64::put(&mut block, setup::Layout::TRUE_ENTRY_CTLS, ANY);
    u64::put(&mut block, setup::Layout::CR0_FIXED1, 0xFFFF_FFFF);
    u64::put(&mut block, setup::Layout::CR4_FIXED1, 0xFFFF_FFFF);
    u64::put(&mut block, setup::Layout::XCR0_SUPPORTED, 7);
    block
}

// An exit with this reason, interrupts on, RCX, and 3 in RAX; CR0 and CR4 are what setup left of them.
fn exit_block(reason: u32, rcx: u64) -> [u8; report::Layout::LENGTH] {
    let mut block = report_block(reason);
    u64::put(&mut block, report::Layout::REGS, 3);
    u64::put(&mut block, report::Layout::REGS + 8, rcx);
    u64::put(&mut block, report::Layout::RFLAGS, 0x202);
    u64::put(&mut block, report::Layout::CR0, 0x10);
    u64::put(&mut block, report::Layout::CR4, 0x2000);
    block
}

// Above the reasons that a report may have.
const UNKNOWN: u32 = 65;

// Bit 31 of a reason, and an invalid guest state.
const FAILED_ENTRY: u32 = 0x8000_0021;

// ---- A session on both sides: the record that the exported calls change, and the session by value.

#[derive(Drop)]
struct Both {
    bytes: [u8; Record::LENGTH],
    session: Session,
}

impl Both {
    // The record's bytes are those of the session.
    fn is_held(&self) -> bool {
        let mut own = [0; Record::LENGTH];
        record::encode(&mut own, self.session).is_ok() && own == self.bytes
    }

    // A line: the call, its number exported and by value, and whether both left the same session.
    fn print(
        &self,
        rt: &impl Print,
        call: &str,
        exported: u32,
        by_value: Result<(), Refusal>,
    ) -> io::Result<()> {
        let by_value = definitions::refusal_of(by_value);
        let held = if self.is_held() { "same" } else { "different" };
        println!(rt; "{call}: {exported} {by_value} {held}")
    }

    fn print_permitted(&self, rt: &impl Print) -> io::Result<()> {
        let fields = self.session.vmcs;
        let words = [
            fields.w32[VmcsControl32::PINBASED_EXEC_CONTROLS],
            fields.w32[VmcsControl32::PRIMARY_PROCBASED_EXEC_CONTROLS],
            fields.w32[VmcsControl32::SECONDARY_PROCBASED_EXEC_CONTROLS],
            fields.w32[VmcsControl32::VMEXIT_CONTROLS],
            fields.w32[VmcsControl32::VMENTRY_CONTROLS],
        ];
        let pairs = self.session.capabilities.pairs;
        let permitted = u8::from(vmcs::controls::all_permitted(pairs, words));
        println!(rt; "control words permitted: {permitted}")
    }

    // Goes on with the session that an accepted call by value gives back beside its answer.
    fn kept<A: Drop>(&mut self, answer: Result<(A, Session), Refusal>) -> Result<A, Refusal> {
        let (answer, session) = answer?;
        self.session = session;
        Ok(answer)
    }

    // Makes a call on both sides.
    fn call<E: FnOnce(&mut [u8]) -> u32, V: FnOnce(Session) -> Result<Session, Refusal>>(
        &mut self,
        rt: &impl Print,
        call: &str,
        exported: E,
        by_value: V,
    ) -> io::Result<()>
        requires exported { E.IsAlwaysCallable exported }
        requires by_value { V.IsAlwaysCallable by_value }
    {
        let number = exported(&mut self.bytes);
        let answer = by_value(self.session).map(|session| ((), session));
        let kept = self.kept(answer);
        self.print(rt, call, number, kept)
    }

    // A set up session is refused a second setup.
    fn set_up(&mut self, rt: &impl Print) -> io::Result<()> {
        let block = setup_block();
        let arguments = setup::arguments_at(&block);
        self.call(
            rt,
            "setup",
            |bytes| {
                let Frames {
                    mut a,
                    mut b,
                    mut msr,
                } = Frames::new();
                x86_vcpu::setup::vcpu_setup(bytes, &block, &mut a, &mut b, &mut msr)
            },
            |session| vcpu_setup::setup(session, arguments),
        )
    }

    fn queue(&mut self, rt: &impl Print, event: Event) -> io::Result<()> {
        self.call(
            rt,
            "queue_event",
            |bytes| vcpu_queue_event(
                bytes,
                event.vector,
                event.code.is_some() as u8,
                event.code.unwrap_or(0),
            ),
            |session| vcpu::queue_event(session, event),
        )
    }

    fn inject(&mut self, rt: &impl Print, vector: u64) -> io::Result<()> {
        self.call(
            rt,
            "inject_interrupt",
            |bytes| vcpu_inject_interrupt(bytes, vector),
            |session| vcpu::inject_interrupt(session, vector),
        )
    }

    fn write_field(&mut self, rt: &impl Print, encoding: u64, value: u64) -> io::Result<()> {
        self.call(
            rt,
            "write_field",
            |bytes| vcpu_write_field(bytes, encoding, value),
            |session| vcpu::write_field(session, encoding, value),
        )
    }

    fn set_register(&mut self, rt: &impl Print, index: u64, value: u64) -> io::Result<()> {
        self.call(
            rt,
            "set_reg_of_index",
            |bytes| vcpu_set_reg_of_index(bytes, index, value),
            |session| vcpu::set_register(session, index, value),
        )
    }

    fn apic_value(&mut self, rt: &impl Print, value: u64) -> io::Result<()> {
        self.call(
            rt,
            "apic_value",
            |bytes| vcpu_apic_value(bytes, value),
            |session| vcpu::apic_value(session, value),
        )
    }

    // Resumed and the injection are printed too, exported and by value; by value a refused entry gives neither, and 0 is printed.
    fn enter(&mut self, rt: &impl Print) -> io::Result<()> {
        let mut resumed: u8 = 9;
        let mut injection: u8 = 9;
        let number = vcpu_entry(&mut self.bytes, 0x1000, &mut resumed, &mut injection);
        let entered = self.kept(vcpu::entry(self.session, 0x1000));
        self.print(rt, "entry", number, entered.map(|_| ()))?;
        let (resumed_by_value, injection_by_value) = entered.map_or((0, 0), |answer| {
            (u8::from(answer.resumed), u8::from(answer.injection))
        });
        println!(rt; "    {resumed} {resumed_by_value} {injection} {injection_by_value}")
    }

    // The first words of the answer are printed too, exported and by value; by value a refused report gives none, and 0 is printed.
    fn exit_report(&mut self, rt: &impl Print, reason: u32, rcx: u64) -> io::Result<()> {
        let block = exit_block(reason, rcx);
        let mut words = [0; 8];
        let number = vcpu_exit_report(&mut self.bytes, &block, &mut words);
        let reported = self.kept(vcpu::exit_report(self.session, report::report_at(&block)));
        self.print(rt, "exit_report", number, reported.map(|_| ()))?;
        let by_value: [u64; 8] = reported.map_or([0; 8], |answer| answer.into());
        println!(rt;
            "    {} {} {:x} {:x}",
            words[0], by_value[0], words[1], by_value[1]
        )
    }
}

// ---- The calls.

const PAGE_FAULT: Event = Event {
    vector: 14,
    code: Some(2),
};

// The MSR of the local APIC's ID.
const X2APIC_ID: u64 = 0x802;

// Encodings of fields.
const PINBASED_EXEC_CONTROLS: u64 = 0x4000;

const VMEXIT_REASON: u64 = 0x4402;

const GUEST_RFLAGS: u64 = 0x6820;

// Indices of registers: no register has that of RSP.
const R15: u64 = 15;

const RSP: u64 = 4;

// Events queued and injected, a held one, an APIC read, an XSETBV, a failed entry, and at last pin controls that are not permitted.
fn run(rt: &impl Print, both: &mut Both) -> io::Result<()> {
    both.queue(rt, PAGE_FAULT)?;
    both.inject(rt, 0x20)?;
    both.inject(rt, 0)?;
    both.inject(rt, 256)?;
    both.apic_value(rt, 7)?;
    both.enter(rt)?;
    both.enter(rt)?;
    both.exit_report(rt, VmxExitReason::MSR_READ as u32, X2APIC_ID)?;
    both.apic_value(rt, 0x1_0000_0007)?;
    both.write_field(rt, GUEST_RFLAGS, 2)?;
    both.write_field(rt, VMEXIT_REASON, 2)?;
    both.set_register(rt, R15, 5)?;
    both.set_register(rt, RSP, 5)?;
    both.enter(rt)?;
    both.exit_report(rt, VmxExitReason::XSETBV as u32, 0)?;
    both.enter(rt)?;
    both.exit_report(rt, UNKNOWN, 0)?;
    both.exit_report(rt, FAILED_ENTRY, 0)?;
    both.enter(rt)?;
    both.queue(rt, PAGE_FAULT)?;
    both.exit_report(rt, VmxExitReason::HLT as u32, 0)?;
    both.write_field(rt, PINBASED_EXEC_CONTROLS, 9)
}

fn main(rt: HostRuntime) -> io::Result<()> {
    let Frames {
        mut a,
        mut b,
        mut msr,
    } = Frames::new();
    let mut bytes = [0; Record::LENGTH];
    let made = vcpu_new(&mut bytes, &mut a, &mut b, &mut msr);
    let decoded = record::decode(&bytes);
    let mut both = Both {
        bytes,
        session: decoded.unwrap_or(vcpu_session::new()),
    };
    both.print(&rt, "new", made, decoded.map(|_| ()))?;
    both.print_permitted(&rt)?;
    both.set_up(&rt)?;
    both.print_permitted(&rt)?;
    both.set_up(&rt)?;
    run(&rt, &mut both)?;
    both.print_permitted(&rt)
}
