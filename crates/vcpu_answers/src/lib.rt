// What the host is to do after an exit, and CPUID as the guest sees it.
// Ported from `run` and `handle_cpuid` of x86_vcpu src/vmx/vcpu.rs (Copyright 2025 The Axvisor Team, Apache-2.0). Changed: accesses of APIC registers
// are answered to the host, and an I/O size of 8 is Halt.
#![tactic(auto)]

ghost use Rattle.std.specs.Prelude.{◌≡◌};
ghost use Rattle.vcpu_answers.specs.Answer.{answer_words, hypercall, interrupt, io_data, is_shutdown, is_width, io_access, io_exit, io_answer, msr_read, msr_write, answer_to, answer_of};

pub mod cpuid;

use definitions::exit_reason::VmxExitReason;
use regs::GeneralRegisters;
use vcpu_exit::Report;
use vmcs::exit_info::VmxIoExitInfo;

// An OUT of two bytes to this port with this number in RAX turns the machine off.
const QEMU_EXIT_PORT: u16 = 0x604;

const QEMU_EXIT_MAGIC: u64 = 0x2000;

// What the host is to do. The names are those of the crate axvcpu, but ApicRead and ApicWrite, which are document 01's. Widths are in bytes.
#[derive(Clone, Copy)]
pub enum AxVCpuExitReason {
    // The exit is dealt with: the next entry may follow.
    Nothing,
    // VMCALL: RAX, and the arguments RDI, RSI, RDX, RCX, R8 and R9.
    Hypercall {
        nr: u64,
        rdi: u64,
        rsi: u64,
        rdx: u64,
        rcx: u64,
        r8: u64,
        r9: u64,
    },
    IoRead {
        port: u16,
        width: u8,
    },
    IoWrite {
        port: u16,
        width: u8,
        data: u64,
    },
    SystemDown,
    ExternalInterrupt {
        vector: u8,
    },
    SysRegRead {
        addr: u64,
    },
    SysRegWrite {
        addr: u64,
        value: u64,
    },
    // The session waits for the value.
    ApicRead {
        msr: u32,
    },
    ApicWrite {
        msr: u32,
        value: u64,
    },
    // Every exit that no other answer is for.
    Halt,
    // The session is ended. The reason is 0, as in the Rust, which has none to give.
    FailEntry {
        reason: u64,
    },
}

// The number of an answer, then its values; unused words are 0.
#[tactic(auto, unfolding(crate::specs::Answer::answer_words))]
impl From<AxVCpuExitReason> for [u64; 8] {
    ghost from_gives = { λ answer words. words ≡ answer_words answer };

    fn from(answer: AxVCpuExitReason) -> [u64; 8] {
        match answer {
            AxVCpuExitReason::Nothing => [0; 8],
            AxVCpuExitReason::Hypercall {
                nr,
                rdi,
                rsi,
                rdx,
                rcx,
                r8,
                r9,
            } => [1, nr, rdi, rsi, rdx, rcx, r8, r9],
            AxVCpuExitReason::IoRead { port, width } => {
                [2, u64::from(port), u64::from(width), 0, 0, 0, 0, 0]
            }
            AxVCpuExitReason::IoWrite { port, width, data } => {
                [3, u64::from(port), u64::from(width), data, 0, 0, 0, 0]
            }
            AxVCpuExitReason::SystemDown => [4, 0, 0, 0, 0, 0, 0, 0],
            AxVCpuExitReason::ExternalInterrupt { vector } => {
                [5, u64::from(vector), 0, 0, 0, 0, 0, 0]
            }
            AxVCpuExitReason::SysRegRead { addr } => [6, addr, 0, 0, 0, 0, 0, 0],
            AxVCpuExitReason::SysRegWrite { addr, value } => [7, addr, value, 0, 0, 0, 0, 0],
            AxVCpuExitReason::ApicRead { msr } => [8, u64::from(msr), 0, 0, 0, 0, 0, 0],
            AxVCpuExitReason::ApicWrite { msr, value } => {
                [9, u64::from(msr), value, 0, 0, 0, 0, 0]
            }
            AxVCpuExitReason::Halt => [10, 0, 0, 0, 0, 0, 0, 0],
            AxVCpuExitReason::FailEntry { reason } => [11, reason, 0, 0, 0, 0, 0, 0],
        }
    }
}

fn hypercall(g: GeneralRegisters) -> AxVCpuExitReason
    ensures { result ≡ hypercall g }
{
    AxVCpuExitReason::Hypercall {
        nr: g.rax,
        rdi: g.rdi,
        rsi: g.rsi,
        rdx: g.rdx,
        rcx: g.rcx,
        r8: g.r8,
        r9: g.r9,
    }
}

fn interrupt(information: u32) -> AxVCpuExitReason
    ensures { result ≡ interrupt information }
{
    let info = vmcs::exit_info::interrupt_exit_info(information);
    AxVCpuExitReason::ExternalInterrupt {
        vector: info.vector,
    }
}

// ---- I/O

// The bytes of RAX that an OUT writes.
#[tactic(auto, unfolding(crate::specs::Answer::io_data))]
fn io_data(width: u8, rax: u64) -> u64
    ensures { result ≡ io_data width rax }
{
    match width {
        1 => rax % 0x100,
        2 => rax % 0x1_0000,
        _ => rax % 0x1_0000_0000,
    }
}

#[tactic(auto, unfolding(crate::specs::Answer::is_shutdown))]
fn is_shutdown(info: VmxIoExitInfo, rax: u64) -> bool
    ensures { result ≡ is_shutdown info rax }
{
    info.port == QEMU_EXIT_PORT && info.access_size == 2 && rax == QEMU_EXIT_MAGIC
}

#[tactic(auto, unfolding(crate::specs::Answer::is_width))]
fn is_width(size: u8) -> bool
    ensures { result ≡ is_width size }
{
    // With `matches!` an exit report takes 520 bytes of stack, above the 512 that the header names.
    size == 1 || size == 2 || size == 4
}

// An access of 1, 2 or 4 bytes that is neither a string access nor repeated.
#[tactic(auto, unfolding(crate::specs::Answer::io_access))]
fn io_access(info: VmxIoExitInfo, rax: u64) -> AxVCpuExitReason
    ensures { result ≡ io_access info rax }
{
    if info.is_in {
        AxVCpuExitReason::IoRead {
            port: info.port,
            width: info.access_size,
        }
    } else if is_shutdown(info, rax) {
        AxVCpuExitReason::SystemDown
    } else {
        AxVCpuExitReason::IoWrite {
            port: info.port,
            width: info.access_size,
            data: io_data(info.access_size, rax),
        }
    }
}

// String and repeated accesses and other sizes are Halt.
#[tactic(auto, unfolding(crate::specs::Answer::io_exit))]
fn io_exit(info: VmxIoExitInfo, rax: u64) -> AxVCpuExitReason
    ensures { result ≡ io_exit info rax }
{
    if info.is_repeat || info.is_string || !is_width(info.access_size) {
        AxVCpuExitReason::Halt
    } else {
        io_access(info, rax)
    }
}

#[tactic(auto, unfolding(crate::specs::Answer::io_answer))]
fn io_answer(qualification: u64, rax: u64) -> AxVCpuExitReason
    ensures { result ≡ io_answer qualification rax }
{
    io_exit(vmcs::exit_info::io_exit_info(qualification), rax)
}

// ---- MSRs

#[tactic(auto, unfolding(crate::specs::Answer::msr_read))]
fn msr_read(g: GeneralRegisters) -> AxVCpuExitReason
    ensures { result ≡ msr_read g }
{
    if vcpu_exit::is_apic(g.rcx) {
        AxVCpuExitReason::ApicRead {
            msr: bits::low(g.rcx),
        }
    } else {
        AxVCpuExitReason::SysRegRead { addr: g.rcx }
    }
}

#[tactic(auto, unfolding(crate::specs::Answer::msr_write))]
fn msr_write(g: GeneralRegisters) -> AxVCpuExitReason
    ensures { result ≡ msr_write g }
{
    let value = vcpu_exit::read_edx_eax(g);
    if vcpu_exit::is_apic(g.rcx) {
        AxVCpuExitReason::ApicWrite {
            msr: bits::low(g.rcx),
            value,
        }
    } else {
        AxVCpuExitReason::SysRegWrite { addr: g.rcx, value }
    }
}

// ---- by reason

// Basic exit reasons as the report has them: a number, that may be no known one.
const EXTERNAL_INTERRUPT: u32 = VmxExitReason::EXTERNAL_INTERRUPT as u32;

const INTERRUPT_WINDOW: u32 = VmxExitReason::INTERRUPT_WINDOW as u32;

const CPUID: u32 = VmxExitReason::CPUID as u32;

const VMCALL: u32 = VmxExitReason::VMCALL as u32;

const CR_ACCESS: u32 = VmxExitReason::CR_ACCESS as u32;

const IO_INSTRUCTION: u32 = VmxExitReason::IO_INSTRUCTION as u32;

const MSR_READ: u32 = VmxExitReason::MSR_READ as u32;

const MSR_WRITE: u32 = VmxExitReason::MSR_WRITE as u32;

const PREEMPTION_TIMER: u32 = VmxExitReason::PREEMPTION_TIMER as u32;

const XSETBV: u32 = VmxExitReason::XSETBV as u32;

// The first are what `builtin_vmexit_handler` deals with.
#[tactic(auto, unfolding(crate::specs::Answer::is_builtin, crate::specs::Answer::answer_to))]
fn answer_to(reason: u32, r: Report) -> AxVCpuExitReason
    ensures { result ≡ answer_to reason r }
{
    match reason {
        INTERRUPT_WINDOW | CPUID | CR_ACCESS | PREEMPTION_TIMER | XSETBV => {
            AxVCpuExitReason::Nothing
        }
        EXTERNAL_INTERRUPT => interrupt(r.interruption),
        VMCALL => hypercall(r.regs),
        IO_INSTRUCTION => io_answer(r.qualification, r.regs.rax),
        MSR_READ => msr_read(r.regs),
        MSR_WRITE => msr_write(r.regs),
        _ => AxVCpuExitReason::Halt,
    }
}

// The answer to an accepted report that is not of a failed entry.
pub fn answer_of(r: Report) -> AxVCpuExitReason
    ensures { result ≡ answer_of r }
{
    answer_to(vcpu_exit::reason_of(r), r)
}
