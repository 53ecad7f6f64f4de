// The exit report: what a VM exit leaves in the session, and what the host is to do.
// Ported from `inner_run` after the exit and `run` of x86_vcpu src/vmx/vcpu.rs (Copyright 2025 The Axvisor Team, Apache-2.0). Changed: the host hands in what
// the processor reported, and a failed entry ends the session.
#![tactic(auto)]

ghost use Rattle.std.specs.Prelude.{◌≡◌, false};
ghost use Rattle.vcpu_exit.specs.Reading.{past_end};
ghost use Rattle.vcpu_exit.specs.Refusal.{report_refusal};
ghost use Rattle.vcpu_report.specs.ExitReport.{registers_after, phase_after, failed_entry, after_exit, accepted, exit_report};

use definitions::exit_reason::VmxExitReason;
use regs::GeneralRegisters;
use vcpu_exit::Report;
use vcpu_session::Phase;

// The general registers after an exit: CPUID changes four of them.
#[tactic(auto, unfolding(crate::specs::ExitReport::registers_after))]
pub fn registers_after(r: Report) -> GeneralRegisters
    ensures { result ≡ registers_after r }
{
    if vcpu_exit::reason_of(r) == VmxExitReason::CPUID as u32 {
        vcpu_answers::cpuid::handle_cpuid(r.regs, r.cpuid)
    } else {
        r.regs
    }
}

// A read of an APIC register waits for its value.
#[tactic(auto, unfolding(crate::specs::ExitReport::phase_after))]
pub fn phase_after(r: Report) -> u8
    ensures { result ≡ phase_after r }
{
    if vcpu_exit::reason_of(r) == VmxExitReason::MSR_READ as u32 && vcpu_exit::is_apic(r.regs.rcx) {
        Phase::WAITING
    } else {
        Phase::READY
    }
}
