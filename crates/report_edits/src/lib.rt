// The exit report done in place on a session's record: it reads and writes the bytes that the report needs, and no others.
// Ported from `inner_run` after the exit, `builtin_vmexit_handler` and the handlers that it calls of x86_vcpu src/vmx/vcpu.rs, and `update_efer` of
// src/vmx/vmcs.rs (Copyright 2025 The Axvisor Team, Apache-2.0). Changed: the host hands in what the processor reported, the session is the bytes of a
// record, every refusal is found before a byte is written, and a failed entry ends the session.
#![tactic(auto)]

ghost use Rattle.std.specs.Prelude.{◌≡◌, true, false, length};
ghost use Rattle.definitions.specs.Refusals.{refusal_of};
ghost use Rattle.vmcs.specs.Writes.{applied};
ghost use Rattle.vcpu_session.specs.Session.{with_vmcs, with_xcr0};
ghost use Rattle.vcpu_exit.specs.Reading.{past_end};
ghost use Rattle.vcpu_exit.specs.Refusal.{entry_pair, owned_bits_differ, report_refusal};
ghost use Rattle.vcpu_report.specs.Handlers.{stored, failure_stored, timer_set, cr0_set, cr4_set, efer_updated, cr_handled, handled_as, rip_advanced, vmcs_after};
ghost use Rattle.vcpu_report.specs.ExitReport.{xcr0_after, failed_entry, after_exit, accepted};
ghost use Rattle.record.specs.Record.{LENGTH};
ghost use Rattle.record.specs.Codec.{session_of, accepted_of};
ghost use Rattle.record_edits.specs.Edited.{session, Edited};
ghost use Rattle.report_edits.specs.Stored.{guest_writes, exit_writes};

use definitions::exit_reason::VmxExitReason;
use definitions::{InterruptionBits, Refusal};
use record::Record;
use record::words::Stored;
use record_edits::SessionRecord;
use vcpu_answers::AxVCpuExitReason;
use vcpu_exit::Report;
use vcpu_session::{Fixed, Phase};
use vmcs::controls::{EferWords, Pair};
use vmcs::flags::Cr0Flags;
use vmcs::names::{
    VmcsControl32, VmcsControlNW, VmcsGuest32, VmcsGuest64, VmcsGuestNW, VmcsReadOnly32,
    VmcsReadOnlyNW,
};

// ---- a capability that a report reads

// The pair of the entry controls, the last of the five, of 8 bytes each.
fn entry_pair_at(b: &[u8]) -> Pair
    requires { length b.now ≡ LENGTH }
    ensures { result ≡ entry_pair (session_of b.now).capabilities }
{
    Pair::get(b, Record::PAIRS + 32)
}

// ---- refusals

// 15: a bit of CR0 or CR4 under its guest/host mask differs from the session's.
#[tactic(auto, unfolding(vcpu_exit::specs::Refusal::owned_bits_differ))]
fn owned_bits_differ(b: &[u8], r: Report) -> bool
    requires { length b.now ≡ LENGTH }
    ensures { result ≡ owned_bits_differ (session_of b.now).vmcs r }
{
    let mask0 = record::natural_at(b, VmcsControlNW::CR0_GUEST_HOST_MASK);
    let mask4 = record::natural_at(b, VmcsControlNW::CR4_GUEST_HOST_MASK);
    let cr0 = record::natural_at(b, VmcsGuestNW::CR0);
    let cr4 = record::natural_at(b, VmcsGuestNW::CR4);
    (r.cr0 & mask0 != cr0 & mask0) | (r.cr4 & mask4 != cr4 & mask4)
}

// The refusal of a report, or 0: 1, not running; 14; 15; then those of the exit. An accepted record's session is never refused by 2.
// The record is bytes and no `SessionRecord`, which is lent for changes: a trial only reads it.
#[tactic(auto, unfolding(vcpu_exit::specs::Refusal::report_refusal))]
pub fn report_refusal(b: &[u8], r: Report) -> Result<(), Refusal>
    requires { accepted_of b.now ≡ true }
    ensures { refusal_of result ≡ report_refusal (session_of b.now) r }
{
    if record::phase_at(b) != Phase::RUNNING {
        return Err(Refusal::Phase);
    }
    if vcpu_exit::unknown_reason(r) {
        return Err(Refusal::Reason);
    }
    if vcpu_exit::is_failed(r) {
        return Ok(());
    }
    if owned_bits_differ(b, r) {
        return Err(Refusal::OwnedBits);
    }
    let pair = entry_pair_at(b);
    let entry = record::w32_at(b, VmcsControl32::VMENTRY_CONTROLS);
    let xcr0 = record::xcr0_at(b);
    vcpu_exit::exit_refusal(pair, entry, xcr0.supported, r)
}

// ---- storing the report

// The guest's registers and control registers.
fn store_guest(b: &mut SessionRecord, r: Report)
    ensures { Edited b.old b.new (λ s. with_vmcs s (applied (guest_writes s.vmcs r) s.vmcs)) }
{
    b.put_natural(VmcsGuestNW::RIP, r.rip);
    b.put_natural(VmcsGuestNW::RSP, r.rsp);
    b.put_natural(VmcsGuestNW::RFLAGS, r.rflags);
    b.put_w32(VmcsGuest32::INTERRUPTIBILITY_STATE, r.interruptibility);
    b.put_natural(VmcsGuestNW::CR0, r.cr0);
    b.put_natural(VmcsGuestNW::CR3, r.cr3);
    b.put_natural(VmcsGuestNW::CR4, r.cr4);
    b.put_w64(VmcsGuest64::IA32_EFER, r.efer);
}

// A failed entry stores no more than these two.
#[tactic(auto, unfolding(vcpu_report::specs::Handlers::failure_stored))]
fn store_failure(b: &mut SessionRecord, r: Report)
    ensures { Edited b.old b.new (λ s. with_vmcs s (failure_stored s.vmcs r)) }
{
    b.put_w32(VmcsReadOnly32::EXIT_REASON, r.reason);
    b.put_natural(VmcsReadOnlyNW::EXIT_QUALIFICATION, r.qualification);
}

// The guest's segments, and the exit words.
#[tactic(auto, unfolding(vcpu_report::specs::Handlers::failure_stored))]
fn store_exit(b: &mut SessionRecord, r: Report)
    ensures { Edited b.old b.new (λ s. with_vmcs s (applied (exit_writes s.vmcs r) s.vmcs)) }
{
    b.put_natural(VmcsGuestNW::CS_BASE, r.csbase);
    b.put_w32(VmcsGuest32::CS_ACCESS_RIGHTS, r.csrights);
    b.put_w32(VmcsGuest32::SS_ACCESS_RIGHTS, r.ssrights);
    store_failure(b, r);
    b.put_w32(VmcsReadOnly32::VMEXIT_INSTRUCTION_LEN, r.length);
    b.put_w32(VmcsReadOnly32::VMEXIT_INTERRUPTION_INFO, r.interruption);
    b.put_w32(VmcsReadOnly32::VMEXIT_INTERRUPTION_ERR_CODE, r.code);
}

const VALID: u32 = 1 << InterruptionBits::VALID;

// The report's fields. The valid bit of the entry interruption field is cleared.
#[tactic(auto, unfolding(vcpu_report::specs::Handlers::stored))]
fn store_report(b: &mut SessionRecord, r: Report)
    ensures { Edited b.old b.new (λ s. with_vmcs s (stored s.vmcs r)) }
{
    let entry = record::w32_at(b.bytes(), VmcsControl32::VMENTRY_INTERRUPTION_INFO_FIELD);
    store_guest(b, r);
    store_exit(b, r);
    b.put_w32(
        VmcsControl32::VMENTRY_INTERRUPTION_INFO_FIELD,
        entry & !VALID,
    );
}

// ---- by reason

// The timer starts anew.
#[tactic(auto, unfolding(vcpu_report::specs::Handlers::timer_set))]
fn handle_vmx_preemption_timer(b: &mut SessionRecord)
    ensures { Edited b.old b.new (λ s. with_vmcs s (timer_set s.vmcs)) }
{
    b.put_w32(
        VmcsGuest32::VMX_PREEMPTION_TIMER_VALUE,
        vcpu_session::VMX_PREEMPTION_TIMER_SET_VALUE,
    );
}

// `set_cr` of CR0.
#[tactic(auto, unfolding(vcpu_report::specs::Handlers::cr0_set))]
fn set_cr0(b: &mut SessionRecord, fixed: Fixed, value: u64)
    ensures { Edited b.old b.new (λ s. with_vmcs s (cr0_set s.vmcs fixed value)) }
{
    let words = vmcs::controls::cr0_words(fixed.fixed0, fixed.fixed1, value);
    b.put_natural(VmcsGuestNW::CR0, words.value);
    b.put_natural(VmcsControlNW::CR0_READ_SHADOW, words.shadow);
    b.put_natural(VmcsControlNW::CR0_GUEST_HOST_MASK, words.mask);
}

// `set_cr` of CR4.
#[tactic(auto, unfolding(vcpu_report::specs::Handlers::cr4_set))]
fn set_cr4(b: &mut SessionRecord, fixed: Fixed, value: u64)
    ensures { Edited b.old b.new (λ s. with_vmcs s (cr4_set s.vmcs fixed value)) }
{
    let words = vmcs::controls::cr4_words(fixed.fixed0, fixed.fixed1, value);
    b.put_natural(VmcsGuestNW::CR4, words.value);
    b.put_natural(VmcsControlNW::CR4_READ_SHADOW, words.shadow);
    b.put_natural(VmcsControlNW::CR4_GUEST_HOST_MASK, words.mask);
}

// EFER and the entry controls where paging is turned on.
#[tactic(auto, unfolding(vcpu_report::specs::Handlers::efer_updated))]
fn update_efer(b: &mut SessionRecord, pair: Pair, efer: u64)
    ensures { Edited b.old b.new (λ s. with_vmcs s (efer_updated s.vmcs pair efer)) }
{
    let entry = record::w32_at(b.bytes(), VmcsControl32::VMENTRY_CONTROLS);
    let update = vmcs::controls::update_efer(pair, efer, entry).unwrap_or(EferWords {
        efer,
        entry,
    });
    b.put_w64(VmcsGuest64::IA32_EFER, update.efer);
    b.put_w32(VmcsControl32::VMENTRY_CONTROLS, update.entry);
}

// A move to CR0 or CR4.
#[tactic(auto, unfolding(vcpu_report::specs::Handlers::cr_handled))]
fn handle_cr(b: &mut SessionRecord, r: Report)
    ensures { Edited b.old b.new (λ s. with_vmcs s (cr_handled s.vmcs s.capabilities r)) }
{
    let value = vcpu_exit::moved_value(r);
    if vcpu_exit::is_move_to(r, 4) {
        let cr4 = Fixed::get(b.bytes(), Record::CR4);
        set_cr4(b, cr4, value);
        return;
    }
    let cr0 = Fixed::get(b.bytes(), Record::CR0);
    set_cr0(b, cr0, value);
    if (value >> Cr0Flags::PAGING) % 2 == 1 {
        let pair = entry_pair_at(b.bytes());
        update_efer(b, pair, r.efer);
        return;
    }
}

#[tactic(auto, unfolding(vcpu_report::specs::Handlers::handled_as))]
fn handle_as(b: &mut SessionRecord, reason: u32, r: Report)
    ensures { Edited b.old b.new (λ s. with_vmcs s (handled_as reason s.vmcs s.capabilities r)) }
{
    if reason == VmxExitReason::INTERRUPT_WINDOW as u32 {
        entry_edits::set_interrupt_window(b, false);
    } else if reason == VmxExitReason::PREEMPTION_TIMER as u32 {
        handle_vmx_preemption_timer(b);
    } else if reason == VmxExitReason::CR_ACCESS as u32 {
        handle_cr(b, r);
    }
}

// RIP past the instruction.
#[tactic(auto, unfolding(vcpu_exit::specs::Reading::past_end, vcpu_report::specs::Handlers::rip_advanced))]
fn advance_rip(b: &mut SessionRecord, r: Report)
    requires { past_end r ≡ false }
    ensures { Edited b.old b.new (λ s. with_vmcs s (rip_advanced s.vmcs r)) }
{
    let rip = r.rip;
    let next = rip + vcpu_exit::advance_of(r);
    b.put_natural(VmcsGuestNW::RIP, next);
}

// The fields after an accepted exit.
#[tactic(auto, unfolding(vcpu_report::specs::Handlers::vmcs_after))]
fn vmcs_after(b: &mut SessionRecord, r: Report)
    requires { past_end r ≡ false }
    ensures { Edited b.old b.new (λ s. with_vmcs s (vmcs_after s.vmcs s.capabilities r)) }
{
    store_report(b, r);
    handle_as(b, vcpu_exit::reason_of(r), r);
    advance_rip(b, r);
}

// XSETBV loads EDX:EAX into XCR0.
#[tactic(auto, unfolding(vcpu_report::specs::ExitReport::xcr0_after))]
fn handle_xsetbv(b: &mut SessionRecord, r: Report)
    ensures { Edited b.old b.new (λ s. with_xcr0 s (xcr0_after s.xcr0 r)) }
{
    if vcpu_exit::reason_of(r) == VmxExitReason::XSETBV as u32 {
        let registers = r.regs;
        b.put_xcr0(vcpu_exit::read_edx_eax(registers));
    }
}

// ---- the session after a report

// A failed entry ends the session.
#[tactic(auto, unfolding(vcpu_report::specs::ExitReport::failed_entry))]
fn failed_entry(b: &mut SessionRecord, r: Report)
    ensures { Edited b.old b.new (λ s. failed_entry s r) }
{
    store_failure(b, r);
    b.put_phase(Phase::ENDED);
}

#[tactic(auto, unfolding(vcpu_report::specs::ExitReport::after_exit))]
fn after_exit(b: &mut SessionRecord, r: Report)
    requires { past_end r ≡ false }
    ensures { Edited b.old b.new (λ s. after_exit s r) }
{
    vmcs_after(b, r);
    handle_xsetbv(b, r);
    b.put_regs(vcpu_report::registers_after(r));
    b.put_phase(vcpu_report::phase_after(r));
}

// The record after a report that is not refused, and what the host is to do.
#[tactic(auto, unfolding(vcpu_report::specs::ExitReport::accepted))]
pub fn accept(b: &mut SessionRecord, r: Report) -> AxVCpuExitReason
    requires { report_refusal (session b.old) r ≡ 0 }
    ensures value { result ≡ (accepted (session b.old) r).answer }
    ensures holds { Edited b.old b.new (λ s. (accepted s r).session) }
{
    if vcpu_exit::is_failed(r) {
        failed_entry(b, r);
        return AxVCpuExitReason::FailEntry { reason: 0 };
    }
    let answer = vcpu_answers::answer_of(r);
    after_exit(b, r);
    answer
}
