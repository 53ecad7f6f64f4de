// Replays lists of the oracle whose answers need no session that was set up, by the exported functions: control words, encodings, intercepts and readings. Reads the lists from standard
// input, and prints the core's answers.
#![tactic(auto)]

mod encodings;
mod readings;

use replay::{UnknownList, answered, print_answer};
use std::io;
use std::str::FromStr;
use structs::FRAME_SIZE;

// The frames of the ports.
#[derive(Drop)]
struct IoBitmaps {
    a: [u8; FRAME_SIZE],
    b: [u8; FRAME_SIZE],
}

// The frames that the cases of the lists of edits go on with.
#[derive(Drop)]
struct State {
    bitmaps: IoBitmaps,
    msr: [u8; FRAME_SIZE],
}

// The lists, by the oracle's names.
#[derive(Clone, Copy)]
enum List {
    SetControl,
    Encodings,
    IoIntercepts,
    MsrIntercepts,
    GetCpuMode,
    GetPtwInfo,
    Gla2gva,
}

impl FromStr for List {
    type Err = UnknownList;

    fn from_str(name: &str) -> Result<Self, UnknownList> {
        match name {
            "set_control" => Ok(List::SetControl),
            "encodings" => Ok(List::Encodings),
            "io_intercepts" => Ok(List::IoIntercepts),
            "msr_intercepts" => Ok(List::MsrIntercepts),
            "get_cpu_mode" => Ok(List::GetCpuMode),
            "get_ptw_info" => Ok(List::GetPtwInfo),
            "gla2gva" => Ok(List::Gla2gva),
            _ => Err(UnknownList),
        }
    }
}

impl replay::StatefulList for List {
    type State = State;

    fn new_state() -> State {
        State {
            bitmaps: IoBitmaps {
                a: [0; FRAME_SIZE],
                b: [0; FRAME_SIZE],
            },
            msr: [0; FRAME_SIZE],
        }
    }

    fn begin(&self, state: &mut State) {
        match self {
            List::IoIntercepts => {
                state.bitmaps.a.fill(0);
                state.bitmaps.b.fill(0);
            }
            List::MsrIntercepts => state.msr.fill(0),
            _ => {}
        }
    }

    fn answer(&self, rt: &impl Print, state: &mut State, numbers: [u64; 8]) -> io::Result<()> {
        match self {
            List::SetControl => set_control(rt, numbers),
            List::Encodings => encodings::encodings(rt, numbers),
            List::IoIntercepts => io_intercepts(rt, &mut state.bitmaps, numbers),
            List::MsrIntercepts => msr_intercepts(rt, &mut state.msr, numbers),
            List::GetCpuMode => readings::get_cpu_mode(rt, numbers),
            List::GetPtwInfo => readings::get_ptw_info(rt, numbers),
            List::Gla2gva => readings::gla2gva(rt, numbers),
        }
    }
}

fn set_control(rt: &impl Print, numbers: [u64; 8]) -> io::Result<()> {
    let [allowed0, allowed1, old, set, clear, ..] = numbers;
    let mut word: u32 = 0;
    let refusal = x86_vcpu::vcpu_set_control(
        bits::low(allowed0),
        bits::low(allowed1),
        bits::low(old),
        bits::low(set),
        bits::low(clear),
        &mut word,
    );
    print_answer(rt, answered(refusal, [word.into()]))
}

// ---- Edits of the intercept frames, each on what the last left.

fn io_intercepts(rt: &impl Print, bitmaps: &mut IoBitmaps, numbers: [u64; 8]) -> io::Result<()> {
    let [port_base, count, intercept, ..] = numbers;
    let refusal = x86_vcpu::vcpu_set_io_intercept_of_range(
        &mut bitmaps.a,
        &mut bitmaps.b,
        bits::low(port_base),
        bits::low(count),
        replay::low_byte(intercept),
    );
    let digests = [replay::digest_of(&bitmaps.a), replay::digest_of(&bitmaps.b)];
    print_answer(rt, answered(refusal, digests))
}

fn msr_intercepts(
    rt: &impl Print,
    frame: &mut [u8; FRAME_SIZE],
    numbers: [u64; 8],
) -> io::Result<()> {
    let [access, msr, intercept, ..] = numbers;
    let msr = bits::low(msr);
    let intercept = replay::low_byte(intercept);
    // The oracle's list names the edit by a number.
    let refusal = match access {
        0 => x86_vcpu::vcpu_set_read_intercept(frame, msr, intercept),
        1 => x86_vcpu::vcpu_set_write_intercept(frame, msr, intercept),
        _ => x86_vcpu::vcpu_set_msr_intercept_of_range(frame, msr, intercept),
    };
    print_answer(rt, answered(refusal, [replay::digest_of(frame)]))
}

fn main(rt: HostRuntime) -> io::Result<()> {
    replay::answer_input_with_state::<List>(&rt)
}
