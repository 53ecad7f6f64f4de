// An entry done in place on the record of a session: it reads what it needs, and writes only the bytes that change.
// Ported from `inner_run` before the exit and `inject_pending_events` of x86_vcpu src/vmx/vcpu.rs, and `inject_event` of src/vmx/vmcs.rs (Copyright 2025 The
// Axvisor Team, Apache-2.0). Changed: the session is the bytes of a record, no error code goes in while CR0.PE is clear, and the entry itself is the host's.
#![tactic(auto)]

ghost use Rattle.std.specs.Prelude.{◌≡◌, true, ℕ, ◌<◌};
ghost use Rattle.vcpu_session.specs.Session.{LAST_ENTRY, with_vmcs, with_queue};
ghost use Rattle.vcpu_events.specs.Queue.{event_of, given, front_of};
ghost use Rattle.vcpu_events.specs.Entry.{injection_of, code_goes_in, word_of, code_of, with_code, with_length, injected, with_stack, window_set, vmcs_after, queue_after, after_entry, entry};
ghost use Rattle.record.specs.Codec.{session_of, accepted_of};
ghost use Rattle.record_edits.specs.Edited.{session, Edited};

use record::Record;
use record::words::Stored;
use record_edits::SessionRecord;
use vcpu_events::{Event, Injection};
use vcpu_session::Phase;
use vmcs::flags::PrimaryControls;
use vmcs::names::{VmcsControl32, VmcsGuest32, VmcsGuestNW, VmcsHostNW, VmcsReadOnly32};

// ---- What an entry reads.

// The front of the queue: the record's code where the queue says that it has one.
#[tactic(auto, using(record::proofs::Accepted::whole), unfolding(record::specs::Codec::session_of))]
fn front_at(b: &[u8]) -> Event
    requires { accepted_of b.now ≡ true }
    ensures { result ≡ given (front_of (session_of b.now).queue) }
{
    Event::new(
        u8::get(b, Record::VECTORS),
        record::coded_at(b) % 2 == 1,
        u32::get(b, Record::CODES),
    )
}

// What the next entry does with the front of the queue. The record is bytes and no `SessionRecord`, which is lent for changes: whoever only reads one may ask.
#[tactic(auto, using(record::proofs::Accepted::whole), unfolding(vcpu_events::specs::Entry::injection_of))]
pub fn injection_at(b: &[u8]) -> Injection
    requires { accepted_of b.now ≡ true }
    ensures { result ≡ injection_of (session_of b.now).queue (session_of b.now).vmcs }
{
    if record::waiting_at(b) == 0 {
        return Injection::Empty;
    }
    let front = front_at(b);
    let rflags = record::natural_at(b, VmcsGuestNW::RFLAGS);
    let interruptibility = record::w32_at(b, VmcsGuest32::INTERRUPTIBILITY_STATE);
    if vcpu_events::is_held(front.vector, rflags, interruptibility) {
        return Injection::Held;
    }
    Injection::Written
}

// ---- Injecting.

// Whether an error code goes in with an event: CR0 is the session's at the entry.
fn code_goes_in_at(b: &SessionRecord, e: Event) -> bool
    ensures { result ≡ code_goes_in (session b.now).vmcs (event_of e) }
{
    vcpu_events::code_goes_in(e.vector, record::natural_at(b.bytes(), VmcsGuestNW::CR0))
}

// The word that an entry writes for an event.
fn word_at(b: &SessionRecord, e: Event) -> u32
    ensures { result ≡ word_of (session b.now).vmcs (event_of e) }
{
    definitions::event_word(e.vector, code_goes_in_at(b, e))
}

// The error code that goes in with an event: the caller's, else the exit's.
#[tactic(auto, unfolding(vcpu_events::specs::Entry::code_of))]
fn code_at(b: &SessionRecord, e: Event) -> u32
    ensures { result ≡ code_of (session b.now).vmcs (event_of e) }
{
    match e.code {
        Some(code) => code,
        None => record::w32_at(b.bytes(), VmcsReadOnly32::VMEXIT_INTERRUPTION_ERR_CODE),
    }
}

// Where no code goes in, the field is kept.
#[tactic(auto, unfolding(vcpu_events::specs::Entry::with_code))]
fn put_code(b: &mut SessionRecord, e: Event)
    ensures { Edited b.old b.new (λ s. with_vmcs s (with_code s.vmcs (event_of e))) }
{
    if code_goes_in_at(b, e) {
        let code = code_at(b, e);
        b.put_w32(VmcsControl32::VMENTRY_EXCEPTION_ERR_CODE, code);
    }
}

// Soft types copy the exit instruction length.
#[tactic(auto, unfolding(vcpu_events::specs::Entry::with_length))]
fn put_length(b: &mut SessionRecord, e: Event)
    ensures { Edited b.old b.new (λ s. with_vmcs s (with_length s.vmcs (event_of e))) }
{
    if definitions::is_soft(definitions::from_vector(e.vector)) {
        let length = record::w32_at(b.bytes(), VmcsReadOnly32::VMEXIT_INSTRUCTION_LEN);
        b.put_w32(VmcsControl32::VMENTRY_INSTRUCTION_LEN, length);
    }
}

// The fields with an event to inject (`inject_event`).
#[tactic(auto, unfolding(vcpu_events::specs::Entry::injected))]
fn inject_event(b: &mut SessionRecord, e: Event)
    ensures { Edited b.old b.new (λ s. with_vmcs s (injected s.vmcs (event_of e))) }
{
    let word = word_at(b, e);
    put_code(b, e);
    put_length(b, e);
    b.put_w32(VmcsControl32::VMENTRY_INTERRUPTION_INFO_FIELD, word);
}

// ---- Entry.

// The host's stack goes in at the first entry only.
#[tactic(auto, unfolding(vcpu_events::specs::Entry::with_stack))]
fn put_stack(b: &mut SessionRecord, launched: bool, stack: u64)
    ensures { Edited b.old b.new (λ s. with_vmcs s (with_stack s.vmcs launched stack)) }
{
    if !launched {
        b.put_natural(VmcsHostNW::RSP, stack);
    }
}

const INTERRUPT_WINDOW_EXITING: u32 = 1 << PrimaryControls::INTERRUPT_WINDOW_EXITING;

// Interrupt-window exiting on or off.
#[tactic(auto, unfolding(vcpu_events::specs::Entry::window_set))]
pub fn set_interrupt_window(b: &mut SessionRecord, enable: bool)
    ensures { Edited b.old b.new (λ s. with_vmcs s (window_set s.vmcs enable)) }
{
    let word = record::w32_at(b.bytes(), VmcsControl32::PRIMARY_PROCBASED_EXEC_CONTROLS);
    let next = if enable {
        word | INTERRUPT_WINDOW_EXITING
    } else {
        word & !INTERRUPT_WINDOW_EXITING
    };
    b.put_w32(VmcsControl32::PRIMARY_PROCBASED_EXEC_CONTROLS, next);
}

// What an entry writes for the front of the queue: nothing, interrupt-window exiting, or the event.
#[tactic(auto, unfolding(vcpu_events::specs::Entry::vmcs_after))]
fn put_injection(b: &mut SessionRecord, e: Event, injection: Injection)
    ensures { Edited b.old b.new (λ s. with_vmcs s (vmcs_after s.vmcs (event_of e) injection)) }
{
    match injection {
        Injection::Empty => {}
        Injection::Held => set_interrupt_window(b, true),
        Injection::Written => inject_event(b, e),
    }
}

// The front leaves the queue only where it is written.
#[tactic(auto, unfolding(vcpu_events::specs::Entry::queue_after))]
fn pop_written(b: &mut SessionRecord, injection: Injection)
    ensures { Edited b.old b.new (λ s. with_queue s (queue_after s.queue injection)) }
{
    match injection {
        Injection::Empty => {}
        Injection::Held => {}
        Injection::Written => b.pop_front(),
    }
}

// The record after an accepted entry, which does `injection` with the front of the queue. The front is read before any byte is written.
#[tactic(auto, unfolding(vcpu_events::specs::Entry::after_entry))]
pub fn after_entry(b: &mut SessionRecord, stack: u64, injection: Injection)
    requires { (session b.old).progress.entries < LAST_ENTRY }
    ensures { Edited b.old b.new (λ s. after_entry s stack injection) }
{
    let p = b.progress();
    let front = front_at(b.bytes());
    let next = vcpu_events::progress_after(p, injection);
    put_stack(b, p.launched, stack);
    put_injection(b, front, injection);
    pop_written(b, injection);
    b.put_progress(next);
}
