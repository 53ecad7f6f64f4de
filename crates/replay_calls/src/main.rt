// Replays the oracle's lists of events, setups and exits by the exported functions, on records, blocks and frames as a host holds them. Reads the lists from standard input, and prints the
// core's answers.
#![tactic(auto)]

mod inject_event;
mod setup;

use blocks::report::Layout;
use definitions::Refusal;
use record::Record;
use record::words::Stored;
use replay::{UnknownList, answered, print_answer};
use std::io;
use std::str::FromStr;
use structs::FRAME_SIZE;
use vcpu_session::Phase;

// The lists, by the oracle's names.
#[derive(Clone, Copy)]
enum List {
    InjectEvent,
    Setup,
    ExitInfo,
    ExitReport,
}

// What the cases of the lists of changes go on with.
#[derive(Drop)]
struct State {
    arguments: [u64; 44],
    reports: Reports,
}

impl FromStr for List {
    type Err = UnknownList;

    fn from_str(name: &str) -> Result<Self, UnknownList> {
        match name {
            "inject_event" => Ok(List::InjectEvent),
            "setup" => Ok(List::Setup),
            "exit_info" => Ok(List::ExitInfo),
            "exit_report" => Ok(List::ExitReport),
            _ => Err(UnknownList),
        }
    }
}

impl replay::StatefulList for List {
    type State = State;

    fn new_state() -> State {
        State {
            arguments: [0; 44],
            reports: Reports {
                bytes: new_record(),
                numbers: [0; 46],
            },
        }
    }

    fn begin(&self, state: &mut State) {
        match self {
            List::Setup => state.arguments = [0; 44],
            List::ExitReport => state.reports.begin(),
            _ => {}
        }
    }

    fn answer(&self, rt: &impl Print, state: &mut State, numbers: [u64; 8]) -> io::Result<()> {
        match self {
            List::InjectEvent => inject_event::inject_event(rt, numbers),
            List::Setup => answer_setup(rt, &mut state.arguments, numbers),
            List::ExitInfo => exit_info(rt, numbers),
            List::ExitReport => state.reports.answer(rt, numbers),
        }
    }
}

// Makes bytes the record of a new session.
fn put_new_record(bytes: &mut [u8; Record::LENGTH]) {
    let mut a = [0u8; FRAME_SIZE];
    let mut b = [0u8; FRAME_SIZE];
    let mut msr = [0u8; FRAME_SIZE];
    x86_vcpu::session::vcpu_new(bytes, &mut a, &mut b, &mut msr);
}

// The record of a new session.
fn new_record() -> [u8; Record::LENGTH] {
    let mut bytes = [0xFFu8; Record::LENGTH];
    put_new_record(&mut bytes);
    bytes
}

// ---- A block of numbers, each at its offset, least significant byte first.

// Stores the numbers from place 1 on in a block of zeros: each has an offset, and goes up to the next one.
fn put_all(block: &mut [u8], offsets: &[usize], numbers: &[u64]) {
    for (bounds, number) in offsets.windows(2).zip(numbers.iter().skip(1)) {
        if let [from, to] = bounds
            && let Some(field) = block.get_mut(*from..*to)
        {
            for (byte, low) in field.iter_mut().zip(number.to_le_bytes()) {
                *byte = low;
            }
        }
    }
}

// The changes of a case: pairs of a place and a value. Unused places are 0.
fn changes(numbers: [u64; 8]) -> [(u64, u64); 4] {
    let [a, b, c, d, e, f, g, h] = numbers;
    [(a, b), (c, d), (e, f), (g, h)]
}

// ---- A field of a record by its encoding.

// The value of a field, which the table has.
fn read(bytes: &[u8; Record::LENGTH], encoding: u64) -> u64 {
    let mut value: u64 = 0;
    x86_vcpu::readings::vcpu_read_field(bytes, encoding, &mut value);
    value
}

// ---- Setup.

// A case changes arguments: place 43 is the byte that fills the frames.
fn answer_setup(rt: &impl Print, arguments: &mut [u64; 44], numbers: [u64; 8]) -> io::Result<()> {
    for (place, value) in changes(numbers) {
        if let Some(argument) = arguments.get_mut(place as usize) {
            *argument = value;
        }
    }
    setup::answer(rt, arguments)
}

// ---- Exit reports: each case changes numbers of the report, words kept from setup and fields of the session, and the running session takes the report. The eight
// words of the answer and a digest of the record are printed. The next case goes on with the report and the record.

// Where the numbers of the block start, and where it ends. They stand at places 1 to 36.
const REPORT_OFFSETS: [usize; 37] = [
    Layout::REGS,
    Layout::REGS + 8,
    Layout::REGS + 16,
    Layout::REGS + 24,
    Layout::REGS + 32,
    Layout::REGS + 40,
    Layout::REGS + 48,
    Layout::REGS + 56,
    Layout::REGS + 64,
    Layout::REGS + 72,
    Layout::REGS + 80,
    Layout::REGS + 88,
    Layout::REGS + 96,
    Layout::REGS + 104,
    Layout::REGS + 112,
    Layout::REGS + 120,
    Layout::RIP,
    Layout::RSP,
    Layout::RFLAGS,
    Layout::INTERRUPTIBILITY,
    Layout::CR0,
    Layout::CR3,
    Layout::CR4,
    Layout::EFER,
    Layout::CS_BASE,
    Layout::CS_RIGHTS,
    Layout::SS_RIGHTS,
    Layout::REASON,
    Layout::QUALIFICATION,
    Layout::INSTRUCTION_LENGTH,
    Layout::INTERRUPTION,
    Layout::ERROR_CODE,
    Layout::CPUID_EAX,
    Layout::CPUID_EBX,
    Layout::CPUID_ECX,
    Layout::CPUID_EDX,
    Layout::LENGTH,
];

// What a case of the list exit_report goes on with: the record, and the numbers of a report and of the words kept from setup.
#[derive(Drop)]
struct Reports {
    bytes: [u8; Record::LENGTH],
    numbers: [u64; 46],
}

impl Reports {
    // A new session, and no numbers.
    fn begin(&mut self) {
        put_new_record(&mut self.bytes);
        self.numbers = [0; 46];
    }

    // One change: of a number by its place, or of a field by its encoding.
    fn change(&mut self, place: u64, value: u64) {
        match self.numbers.get_mut(place as usize) {
            Some(number) => *number = value,
            None => {
                x86_vcpu::session::vcpu_write_field(&mut self.bytes, place, value);
            }
        }
    }

    // The words kept from setup stand at places 37 to 45, in the order of the record: five pairs, allowed-1 in the high half, and four words of fixed bits.
    fn put_kept(&mut self) {
        let numbers = self.numbers;
        for (i, kept) in numbers[37..].iter().enumerate() {
            u64::put(&mut self.bytes, Record::PAIRS + 8 * i, *kept);
        }
    }

    // Takes the report of the numbers, and prints the answer.
    fn take(&mut self, rt: &impl Print) -> io::Result<()> {
        self.put_kept();
        u8::put(&mut self.bytes, Record::PHASE, Phase::RUNNING);
        let mut block = [0u8; Layout::LENGTH];
        put_all(&mut block, &REPORT_OFFSETS, &self.numbers);
        let mut w = [0u64; 8];
        let refusal = x86_vcpu::report::vcpu_exit_report(&mut self.bytes, &block, &mut w);
        let [a, b, c, d, e, f, g, h] = w;
        let digest = replay::digest_of(&self.bytes);
        print_answer(rt, answered(refusal, [a, b, c, d, e, f, g, h, digest]))
    }

    fn answer(&mut self, rt: &impl Print, numbers: [u64; 8]) -> io::Result<()> {
        for (place, value) in changes(numbers) {
            self.change(place, value);
        }
        self.take(rt)
    }
}

// The refusal of a report of this reason, to a new session that runs.
fn reason_refusal(reason: u32) -> u32 {
    let mut bytes = new_record();
    u8::put(&mut bytes, Record::PHASE, Phase::RUNNING);
    let mut block = [0u8; Layout::LENGTH];
    u32::put(&mut block, Layout::REASON, reason);
    let mut w = [0u64; 8];
    x86_vcpu::report::vcpu_exit_report(&mut bytes, &block, &mut w)
}

// The parts of a full reason, or the refusal where a report of the reason is refused by it. The list has the Rust's decoder, which takes bit 31 with any reason, so
// the report is asked without bit 31. The Rust also has names for reasons 65 to 69, which document 01 refuses by 14: the list has no case of them.
fn exit_info(rt: &impl Print, numbers: [u64; 8]) -> io::Result<()> {
    let [full_reason, ..] = numbers;
    let full_reason = bits::low(full_reason);
    let info = vmcs::exit_info::exit_info(full_reason);
    let refusal = reason_refusal(full_reason % 0x8000_0000);
    let parts = if refusal == u32::from(Refusal::Reason) {
        Err(refusal)
    } else {
        Ok([u64::from(info.entry_failure), u64::from(info.exit_reason)])
    };
    print_answer(rt, parts)
}

fn main(rt: HostRuntime) -> io::Result<()> {
    replay::answer_input_with_state::<List>(&rt)
}
