// The C interface of the core: each call of x86_vcpu, with its clauses, under its C name. It answers
// 0 or the number of the refusal (document 01), and a refused call writes nothing. A yes/no argument
// is a byte, refused by 2 unless it is 0 or 1. A slice crosses as its pointer and then its length.
#![tactic(auto)]

ghost use Rattle.std.specs.Prelude.{◌≡◌};
ghost use Rattle.trap_sheet.specs.Sheet.{trap_sheet};
ghost use Rattle.call_specs.specs.Calls.{control_call, port_call, msr_call, reads, writes, both};

pub mod readings;
pub mod report;
pub mod session;
pub mod setup;
pub mod trial;

// A control word from its pair: refusals 6, 7, 8, 9.
#[unsafe(no_mangle)]
pub extern "C" fn vcpu_set_control(
    allowed0: u32,
    allowed1: u32,
    old: u32,
    set: u32,
    clear: u32,
    word: &mut u32,
) -> u32
    ensures { record { refusal = result; word = word.new } ≡ control_call allowed0 allowed1 old set clear word.old }
{
    x86_vcpu::vcpu_set_control(allowed0, allowed1, old, set, clear, word)
}

// The intercepts of count ports from port_base on: refusals 2, 10.
#[unsafe(no_mangle)]
pub extern "C" fn vcpu_set_io_intercept_of_range(
    a: &mut [u8],
    b: &mut [u8],
    port_base: u32,
    count: u32,
    intercept: u8,
) -> u32
    ensures { record { refusal = result; a = a.new; b = b.new } ≡ port_call a.old b.old port_base count intercept }
{
    x86_vcpu::vcpu_set_io_intercept_of_range(a, b, port_base, count, intercept)
}

// The intercept of reads of one MSR: refusals 2, 11.
#[unsafe(no_mangle)]
pub extern "C" fn vcpu_set_read_intercept(frame: &mut [u8], msr: u32, intercept: u8) -> u32
    ensures { record { refusal = result; frame = frame.new } ≡ msr_call reads frame.old msr intercept }
{
    x86_vcpu::vcpu_set_read_intercept(frame, msr, intercept)
}

// The intercept of writes of one MSR: refusals 2, 11.
#[unsafe(no_mangle)]
pub extern "C" fn vcpu_set_write_intercept(frame: &mut [u8], msr: u32, intercept: u8) -> u32
    ensures { record { refusal = result; frame = frame.new } ≡ msr_call writes frame.old msr intercept }
{
    x86_vcpu::vcpu_set_write_intercept(frame, msr, intercept)
}

// The intercepts of reads and of writes of one MSR: refusals 2, 11.
#[unsafe(no_mangle)]
pub extern "C" fn vcpu_set_msr_intercept_of_range(frame: &mut [u8], msr: u32, intercept: u8) -> u32
    ensures { record { refusal = result; frame = frame.new } ≡ msr_call both frame.old msr intercept }
{
    x86_vcpu::vcpu_set_msr_intercept_of_range(frame, msr, intercept)
}

// The trap sheet of the three frames, and its length in bytes: refusals 2, 24.
#[unsafe(no_mangle)]
pub extern "C" fn vcpu_trap_sheet(
    a: &[u8],
    b: &[u8],
    msr: &[u8],
    output: &mut [u8],
    length: &mut u64,
) -> u32
    ensures { record { refusal = result; output = output.new; size = length.new } ≡ trap_sheet a.now b.now msr.now output.old length.old }
{
    x86_vcpu::vcpu_trap_sheet(a, b, msr, output, length)
}
