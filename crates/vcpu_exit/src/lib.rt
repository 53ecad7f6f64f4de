// What a VM exit reports, what its words say, and the refusals of a report.
// Ported from x86_vcpu src/vmx/vcpu.rs (Copyright 2025 The Axvisor Team, Apache-2.0). Changed: what the Rust reads from the processor after an
// exit is one report, and what it panics at is refused.
#![tactic(auto)]

ghost use Rattle.std.specs.Prelude.{◌≡◌, ◌<◌};
ghost use Rattle.definitions.specs.Refusals.{refusal_of};
ghost use Rattle.vcpu_exit.specs.Reading.{reason_of, failed, is_apic, read_edx_eax, register_of, moved_value, is_move_to, turns_paging_on, advance_to, advance_of, past_end};
ghost use Rattle.vcpu_exit.specs.Refusal.{unknown_reason, owned_bits_differ, no_interrupt, other_access, other_xcr, refused_xcr0, efer_refusal, reason_refusal, exit_refusal, report_refusal};
ghost use Rattle.vcpu_exit.specs.Xcr0.{xcr0_allowed};

use definitions::exit_reason::VmxExitReason;
use definitions::{Refusal, VmxInterruptionType};
use regs::GeneralRegisters;
use vcpu_session::{Phase, Session};
use vmcs::Vmcs;
use vmcs::controls::Pair;
use vmcs::flags::{Cr0Flags, XCr0Flags};
use vmcs::names::{VmcsControl32, VmcsControlNW, VmcsGuestNW};

// The four words of CPUID.
#[derive(Clone, Copy)]
pub struct CpuidWords {
    pub eax: u32,
    pub ebx: u32,
    pub ecx: u32,
    pub edx: u32,
}

// What an exit reports: the general registers, the guest's fields, the exit words, and the host's CPUID words for the guest's EAX and ECX.
#[derive(Clone, Copy)]
pub struct Report {
    pub regs: GeneralRegisters,
    pub rip: u64,
    pub rsp: u64,
    pub rflags: u64,
    pub interruptibility: u32,
    pub cr0: u64,
    pub cr3: u64,
    pub cr4: u64,
    pub efer: u64,
    pub csbase: u64,
    pub csrights: u32,
    pub ssrights: u32,
    // The full exit reason.
    pub reason: u32,
    pub qualification: u64,
    pub length: u32,
    // The interruption information and its error code.
    pub interruption: u32,
    pub code: u32,
    pub cpuid: CpuidWords,
}

// ---- readings

// The exit reasons that count here, by their numbers: what a processor reports may have no name.
const EXTERNAL_INTERRUPT: u32 = VmxExitReason::EXTERNAL_INTERRUPT as u32;

const CPUID: u32 = VmxExitReason::CPUID as u32;

const VMCALL: u32 = VmxExitReason::VMCALL as u32;

const CR_ACCESS: u32 = VmxExitReason::CR_ACCESS as u32;

const IO_INSTRUCTION: u32 = VmxExitReason::IO_INSTRUCTION as u32;

const MSR_READ: u32 = VmxExitReason::MSR_READ as u32;

const MSR_WRITE: u32 = VmxExitReason::MSR_WRITE as u32;

const INVALID_GUEST_STATE: u32 = VmxExitReason::INVALID_GUEST_STATE as u32;

const MSR_LOAD_FAIL: u32 = VmxExitReason::MSR_LOAD_FAIL as u32;

const MCE_DURING_VMENTRY: u32 = VmxExitReason::MCE_DURING_VMENTRY as u32;

const APIC_ACCESS: u32 = VmxExitReason::APIC_ACCESS as u32;

const XSETBV: u32 = VmxExitReason::XSETBV as u32;

// The basic exit reason.
pub fn reason_of(r: Report) -> u32
    ensures { result ≡ reason_of r }
{
    vmcs::exit_info::exit_info(r.reason).exit_reason
}

// The entry failed.
pub fn is_failed(r: Report) -> bool
    ensures { result ≡ failed r }
{
    vmcs::exit_info::exit_info(r.reason).entry_failure
}

// Whether ECX is the MSR of an x2APIC register.
#[tactic(auto, unfolding(crate::specs::Reading::is_apic))]
pub fn is_apic(rcx: u64) -> bool
    ensures { result ≡ is_apic rcx }
{
    matches!(bits::low(rcx), 0x800..=0x8FF)
}

// EDX:EAX.
pub fn read_edx_eax(g: GeneralRegisters) -> u64
    ensures { result ≡ read_edx_eax g }
{
    bits::join(bits::low(g.rdx), bits::low(g.rax))
}

// A register by the number that an instruction has for it. Register 4 is RSP.
#[tactic(auto, unfolding(crate::specs::Reading::register_of))]
fn register_of(g: GeneralRegisters, rsp: u64, index: u8) -> u64
    requires { index < 16 }
    ensures { result ≡ register_of g rsp index }
{
    if index == 4 {
        return rsp;
    }
    <[u64; 16]>::from(g)[index as usize]
}

// The value that a move to a control register brings.
#[tactic(auto, unfolding(crate::specs::Reading::moved_value))]
pub fn moved_value(r: Report) -> u64
    ensures { result ≡ moved_value r }
{
    let access = vmcs::exit_info::cr_access_info(r.qualification);
    register_of(r.regs, r.rsp, access.gpr)
}

// Whether a control-register access is a move to the register n.
#[tactic(auto, unfolding(crate::specs::Reading::is_move_to))]
pub fn is_move_to(r: Report, n: u8) -> bool
    ensures { result ≡ is_move_to r n }
{
    let access = vmcs::exit_info::cr_access_info(r.qualification);
    (access.access_type == 0) & (access.cr_number == n)
}

// A move to CR0 of a value with PG.
#[tactic(auto, unfolding(crate::specs::Reading::turns_paging_on))]
fn turns_paging_on(r: Report) -> bool
    ensures { result ≡ turns_paging_on r }
{
    (reason_of(r) == CR_ACCESS) & is_move_to(r, 0) & ((moved_value(r) >> Cr0Flags::PAGING) % 2 == 1)
}

#[tactic(auto, unfolding(crate::specs::Reading::advance_to))]
fn advance_to(reason: u32, r: Report) -> u64
    ensures { result ≡ advance_to reason r }
{
    match reason {
        CPUID => 2,
        CR_ACCESS => 3,
        VMCALL | IO_INSTRUCTION => r.length as u64 % 0x100,
        MSR_READ | MSR_WRITE if is_apic(r.regs.rcx) => 2,
        XSETBV => 3,
        _ => 0,
    }
}

// By how much RIP advances. A call that is not inlined copies the report.
#[inline]
pub fn advance_of(r: Report) -> u64
    ensures { result ≡ advance_of r }
{
    advance_to(reason_of(r), r)
}

// ---- refusals

// 14: above 64, or 35, 38 or 42, which the manual leaves out, or failed with a reason other than 33, 34 and 41.
#[tactic(auto, unfolding(crate::specs::Refusal::unknown_reason))]
pub fn unknown_reason(r: Report) -> bool
    ensures { result ≡ unknown_reason r }
{
    let n = reason_of(r);
    let known = matches!(n, 0..=34 | 36..=37 | 39..=41 | 43..=64);
    let entry = matches!(n, INVALID_GUEST_STATE | MSR_LOAD_FAIL | MCE_DURING_VMENTRY);
    !known | (is_failed(r) & !entry)
}

// 16: an external interrupt whose information is not valid, or of the reserved type.
#[tactic(auto, unfolding(crate::specs::Refusal::no_interrupt, definitions::specs::Interruption::type_number))]
fn no_interrupt(r: Report) -> bool
    ensures { result ≡ no_interrupt r }
{
    let info = vmcs::exit_info::interrupt_exit_info(r.interruption);
    let int_type = definitions::type_of(r.interruption);
    (reason_of(r) == EXTERNAL_INTERRUPT)
        & (!info.valid | matches!(int_type, VmxInterruptionType::Reserved))
}

// 18: a control-register access that is no move to CR0 or CR4.
#[tactic(auto, unfolding(crate::specs::Refusal::other_access))]
fn other_access(r: Report) -> bool
    ensures { result ≡ other_access r }
{
    (reason_of(r) == CR_ACCESS) & !(is_move_to(r, 0) | is_move_to(r, 4))
}

// 20: XSETBV with ECX not 0.
#[tactic(auto, unfolding(crate::specs::Refusal::other_xcr))]
fn other_xcr(r: Report) -> bool
    ensures { result ≡ other_xcr r }
{
    (reason_of(r) == XSETBV) & (bits::low(r.regs.rcx) != 0)
}

// A value that XCR0 may have, within the supported bits: the manual's rule, over each bit as 0 or 1.
#[tactic(auto, unfolding(crate::specs::Xcr0::xcr0_allowed))]
fn xcr0_allowed(supported: u64, value: u64) -> bool
    ensures { result ≡ xcr0_allowed supported value }
{
    let x87 = (value >> XCr0Flags::X87) % 2;
    let sse = (value >> XCr0Flags::SSE) % 2;
    let avx = (value >> XCr0Flags::AVX) % 2;
    let bndreg = (value >> XCr0Flags::BNDREG) % 2;
    let bndcsr = (value >> XCr0Flags::BNDCSR) % 2;
    let opmask = (value >> XCr0Flags::OPMASK) % 2;
    let zmm_hi256 = (value >> XCr0Flags::ZMM_HI256) % 2;
    let hi16_zmm = (value >> XCr0Flags::HI16_ZMM) % 2;
    let tilecfg = (value >> XCr0Flags::TILECFG) % 2;
    let tiledata = (value >> XCr0Flags::TILEDATA) % 2;
    (x87 == 1)
        & (avx <= sse)
        & (bndreg == bndcsr)
        & (opmask == zmm_hi256)
        & (zmm_hi256 == hi16_zmm)
        & (opmask <= avx)
        & (tilecfg == tiledata)
        & (value & supported == value)
}

// 19: XSETBV of a value that XCR0 may not have.
#[tactic(auto, unfolding(crate::specs::Refusal::refused_xcr0))]
fn refused_xcr0(supported: u64, r: Report) -> bool
    ensures { result ≡ refused_xcr0 supported r }
{
    reason_of(r) == XSETBV && !xcr0_allowed(supported, read_edx_eax(r.regs))
}

// 17: RIP would pass 2^64 - 1.
#[tactic(auto, unfolding(crate::specs::Reading::past_end))]
fn past_end(r: Report) -> bool
    ensures { result ≡ past_end r }
{
    r.rip.checked_add(advance_of(r)).is_none()
}

// 8: paging is turned on, and entry bit 9 is to be set and is not in allowed-1.
#[tactic(auto, unfolding(crate::specs::Refusal::efer_refusal))]
fn efer_refusal(pair: Pair, entry: u32, r: Report) -> Result<(), Refusal>
    ensures { refusal_of result ≡ efer_refusal pair entry r }
{
    if turns_paging_on(r) {
        vmcs::controls::update_efer(pair, r.efer, entry)?;
    }
    Ok(())
}

// Those of one exit reason alone: 16; 18; 20; 19; 21, an APIC access.
#[tactic(auto, unfolding(crate::specs::Refusal::reason_refusal))]
fn reason_refusal(supported: u64, r: Report) -> Result<(), Refusal>
    ensures { refusal_of result ≡ reason_refusal supported r }
{
    if no_interrupt(r) {
        return Err(Refusal::Interrupt);
    }
    if other_access(r) {
        return Err(Refusal::CrAccess);
    }
    if other_xcr(r) {
        return Err(Refusal::Xcr);
    }
    if refused_xcr0(supported, r) {
        return Err(Refusal::Xcr0);
    }
    if reason_of(r) == APIC_ACCESS {
        return Err(Refusal::ApicAccess);
    }
    Ok(())
}

// The refusals of an exit: those of its reason; 17; 8. The reason's stand in a function of their own: the compiler does not inline a call behind so many
// branches, and would copy the report for it.
#[tactic(auto, unfolding(crate::specs::Refusal::exit_refusal, bits::specs::Refuses::or_else))]
pub fn exit_refusal(pair: Pair, entry: u32, supported: u64, r: Report) -> Result<(), Refusal>
    ensures { refusal_of result ≡ exit_refusal pair entry supported r }
{
    reason_refusal(supported, r)?;
    if past_end(r) {
        return Err(Refusal::Sum);
    }
    efer_refusal(pair, entry, r)
}
