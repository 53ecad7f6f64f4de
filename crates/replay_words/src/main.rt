// Replays lists of the oracle that the exported functions do not answer: words and decoders that they are made of, and registers and fields by value. Reads
// the lists from standard input, and prints the core's answers.
#![tactic(auto)]

mod controls;
mod events;
mod exits;

use definitions::Refusal;
use regs::GeneralRegisters;
use replay::UnknownList;
use std::io;
use std::str::FromStr;
use vmcs::Vmcs;

// The lists, by the oracle's names.
#[derive(Clone, Copy)]
enum List {
    SetCr,
    UpdateEfer,
    EptPointer,
    Vectors,
    IoExitInfo,
    CrAccessInfo,
    InterruptExitInfo,
    Registers,
    Fields,
}

// What the cases of the registers and of the fields go on with.
#[derive(Drop)]
struct State {
    registers: GeneralRegisters,
    fields: Vmcs,
}

fn no_fields() -> Vmcs {
    Vmcs {
        w16: [0; 17],
        w32: [0; 50],
        w64: [0; 41],
        natural: [0; 46],
    }
}

impl FromStr for List {
    type Err = UnknownList;

    fn from_str(name: &str) -> Result<Self, UnknownList> {
        match name {
            "set_cr" => Ok(List::SetCr),
            "update_efer" => Ok(List::UpdateEfer),
            "ept_pointer" => Ok(List::EptPointer),
            "vectors" => Ok(List::Vectors),
            "io_exit_info" => Ok(List::IoExitInfo),
            "cr_access_info" => Ok(List::CrAccessInfo),
            "interrupt_exit_info" => Ok(List::InterruptExitInfo),
            "registers" => Ok(List::Registers),
            "fields" => Ok(List::Fields),
            _ => Err(UnknownList),
        }
    }
}

impl replay::StatefulList for List {
    type State = State;

    fn new_state() -> State {
        State {
            registers: GeneralRegisters::from([0; 16]),
            fields: no_fields(),
        }
    }

    fn begin(&self, state: &mut State) {
        match self {
            List::Registers => state.registers = GeneralRegisters::from([0; 16]),
            List::Fields => state.fields = no_fields(),
            _ => {}
        }
    }

    fn answer(&self, rt: &impl Print, state: &mut State, numbers: [u64; 8]) -> io::Result<()> {
        match self {
            List::SetCr => controls::set_cr(rt, numbers),
            List::UpdateEfer => controls::update_efer(rt, numbers),
            List::EptPointer => controls::ept_pointer(rt, numbers),
            List::Vectors => events::vectors(rt, numbers),
            List::IoExitInfo => exits::io_exit_info(rt, numbers),
            List::CrAccessInfo => exits::cr_access_info(rt, numbers),
            List::InterruptExitInfo => exits::interrupt_exit_info(rt, numbers),
            List::Registers => answer_registers(rt, &mut state.registers, numbers),
            List::Fields => answer_fields(rt, &mut state.fields, numbers),
        }
    }
}

// ---- Registers and fields by value: each case goes on with what the last left.

// The value at a place, after a write of it where the first number is not 0.
fn access<
    T: Copy,
    Write: Fn(T, u64, u64) -> Result<T, Refusal>,
    Read: Fn(T, u64) -> Result<u64, Refusal>,
>(words: &mut T, numbers: [u64; 8], write: Write, read: Read) -> Result<u64, Refusal>
    requires writes { Write.IsAlwaysCallable write }
    requires reads { Read.IsAlwaysCallable read }
{
    let [is_write, place, value, ..] = numbers;
    if is_write != 0 {
        *words = write(*words, place, value)?;
    }
    read(*words, place)
}

fn print_answer(rt: &impl Print, answer: Result<u64, Refusal>) -> io::Result<()> {
    replay::print_answer(rt, answer.map(|value| [value]).map_err(u32::from))
}

fn answer_registers(
    rt: &impl Print,
    g: &mut GeneralRegisters,
    numbers: [u64; 8],
) -> io::Result<()> {
    print_answer(
        rt,
        access(g, numbers, regs::with_reg_of_index, regs::reg_of_index),
    )
}

fn answer_fields(rt: &impl Print, fields: &mut Vmcs, numbers: [u64; 8]) -> io::Result<()> {
    print_answer(
        rt,
        access(fields, numbers, vmcs::vmcs_write, vmcs::vmcs_read),
    )
}

fn main(rt: HostRuntime) -> io::Result<()> {
    replay::answer_input_with_state::<List>(&rt)
}
