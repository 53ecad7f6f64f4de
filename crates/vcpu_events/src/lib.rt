// Queueing and injecting events, and entering the guest.
// Ported from x86_vcpu src/vmx/vcpu.rs and inject_event of src/vmx/vmcs.rs (Copyright 2025 The Axvisor Team, Apache-2.0). Changed: the queue
// holds 64 events; no error code goes in while CR0.PE is clear; what the Rust panics at is refused by a number; the entry itself is the host's.
#![tactic(auto)]

ghost use Rattle.std.specs.Prelude.{◌≡◌, ◌<◌, ◌≤◌};
ghost use Rattle.bits.specs.Words.{with_bit};
ghost use Rattle.vcpu_session.specs.Session.{LAST_ENTRY};
ghost use Rattle.vcpu_events.specs.Queue.{given};
ghost use Rattle.vcpu_events.specs.Entry.{is_held, code_in, progress_after, injection_number};

use vcpu_session::{Phase, Progress};
use vmcs::flags::{Cr0Flags, RFlags};

// An event: a vector and, if one is given, an error code.
#[derive(Clone, Copy, Debug, PartialEq, Eq)]
pub struct Event {
    pub vector: u8,
    pub code: Option<u32>,
}

impl Event {
    // The event of three numbers, as C gives them and as the record has them: the code is one only where it is `coded`.
    pub fn new(vector: u8, coded: bool, code: u32) -> Event
        ensures { result ≡ given (record { vector = vector; coded = coded; code = code }) }
    {
        Event {
            vector,
            code: coded.then_some(code),
        }
    }
}

// What an entry does with the front of the queue: the queue is empty, the event is held back, or its word is written.
#[derive(Clone, Copy, Debug, PartialEq, Eq, Hash)]
pub enum Injection {
    Empty = 0,
    Held = 1,
    Written = 2,
}

// The number of what an entry did, in the C interface.
impl From<Injection> for u8 {
    ghost from_gives = { λ injection n. n ≡ injection_number injection };

    fn from(injection: Injection) -> u8 {
        injection as u8
    }
}

// What an accepted entry answers: whether it resumes a launched guest, and what it does with the front of the queue.
#[derive(Clone, Copy, Debug, PartialEq, Eq)]
pub struct EntryAnswer {
    pub resumed: bool,
    pub injection: Injection,
}

// ---- the queue

// Bit `place` of the word made `on`.
pub fn with_coded(coded: u64, place: u8, on: bool) -> u64
    requires { place < 64 }
    ensures { result ≡ with_bit place on coded }
{
    let one = 1u64 << place;
    if on { coded | one } else { coded & !one }
}

// ---- entry

// The event is an interrupt (vector 32 or above), and interrupts are blocked (`allow_interrupt`).
#[tactic(auto, unfolding(crate::specs::Entry::is_held))]
pub fn is_held(vector: u8, rflags: u64, interruptibility: u32) -> bool
    ensures { result ≡ is_held vector rflags interruptibility }
{
    (32 <= vector) & (((rflags >> RFlags::INTERRUPT_FLAG) % 2 == 0) | (interruptibility != 0))
}

// An error code goes in with an event: its vector carries one, and the guest is in protected mode. In real-address mode no exception has one.
#[tactic(auto, unfolding(crate::specs::Entry::code_in))]
pub fn code_goes_in(vector: u8, cr0: u64) -> bool
    ensures { result ≡ code_in vector cr0 }
{
    definitions::vector_has_error_code(vector) & ((cr0 >> Cr0Flags::PROTECTED_MODE_ENABLE) % 2 == 1)
}

// Running, launched, one entry more, and one held entry more where the event is held. The caller has tested 22.
#[tactic(auto, unfolding(crate::specs::Entry::progress_after))]
pub fn progress_after(p: Progress, injection: Injection) -> Progress
    requires { (p.entries < LAST_ENTRY) × (p.held ≤ p.entries) }
    ensures { result ≡ progress_after p injection }
{
    let held = match injection {
        Injection::Held => p.held + 1,
        Injection::Empty | Injection::Written => p.held,
    };
    Progress {
        phase: Phase::RUNNING,
        launched: true,
        entries: p.entries + 1,
        held,
    }
}
