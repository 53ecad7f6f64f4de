// The session of one virtual CPU, by value.
// Ported from VmxVcpu of x86_vcpu src/vmx/vcpu.rs (Copyright 2025 The Axvisor Team, Apache-2.0). Changed: what the Rust reads from the
// processor is part of the session or comes in as an argument; the queue of events has 64 places.
#![tactic(auto)]

ghost use Rattle.std.specs.Prelude.{◌≡◌};
ghost use Rattle.vcpu_session.specs.Session.{new_session, is_unlawful};

use regs::GeneralRegisters;
use vmcs::Vmcs;
use vmcs::controls::Pair;

// What the preemption timer is set to, at setup and where it has run out.
pub const VMX_PREEMPTION_TIMER_SET_VALUE: u32 = 1_000_000;

// The entry count at which no further entry is accepted (refusal 22).
pub const LAST_ENTRY: u32 = 0xFFFF_FFFF;

// The phases of a session, by document 01's names and numbers. Numbers and no enum: a call by value answers 2 for a session of another phase (`vcpu::queue_event`).
#[derive(Drop)]
pub struct Phase {}

impl Phase {
    pub const FRESH: u8 = 0;

    pub const READY: u8 = 1;

    pub const RUNNING: u8 = 2;

    pub const WAITING: u8 = 3;

    pub const ENDED: u8 = 4;
}

// Where a session stands: its phase, whether it was launched, its accepted entries, and those of them that held an event.
#[derive(Clone, Copy)]
pub struct Progress {
    pub phase: u8,
    pub launched: bool,
    pub entries: u32,
    pub held: u32,
}

// The waiting events, the front at place 0: how many, their vectors, whether each has an error code (bit i for place i), and the codes. Places
// past the last event are zero in every session that the operations make.
#[derive(Clone, Copy)]
pub struct Queue {
    pub waiting: u8,
    pub vectors: [u8; 64],
    pub coded: u64,
    pub codes: [u32; 64],
}

// The bits of a control register that must be 1 (fixed-0), and those that may be (fixed-1).
#[derive(Clone, Copy)]
pub struct Fixed {
    pub fixed0: u64,
    pub fixed1: u64,
}

// What the processor allows, kept from setup: the pairs of the five control words (pin, primary, secondary, exit, entry), and the fixed bits
// of CR0 and CR4.
#[derive(Clone, Copy)]
pub struct Capabilities {
    pub pairs: [Pair; 5],
    pub cr0: Fixed,
    pub cr4: Fixed,
}

// The guest's XCR0, and the bits of it that the host supports, kept from setup.
#[derive(Clone, Copy)]
pub struct Xcr0 {
    pub value: u64,
    pub supported: u64,
}

#[derive(Clone, Copy)]
pub struct Session {
    pub progress: Progress,
    pub regs: GeneralRegisters,
    pub vmcs: Vmcs,
    pub queue: Queue,
    pub capabilities: Capabilities,
    pub xcr0: Xcr0,
}

// A new session: fresh, and all zero.
#[tactic(auto, unfolding(crate::specs::Session::new_session))]
pub fn new() -> Session
    ensures { result ≡ new_session }
{
    let no_pair = Pair {
        allowed0: 0,
        allowed1: 0,
    };
    let no_fixed = Fixed {
        fixed0: 0,
        fixed1: 0,
    };
    let registers = GeneralRegisters::from([0; 16]);
    Session {
        progress: Progress {
            phase: Phase::FRESH,
            launched: false,
            entries: 0,
            held: 0,
        },
        regs: registers,
        vmcs: Vmcs {
            w16: [0; 17],
            w32: [0; 50],
            w64: [0; 41],
            natural: [0; 46],
        },
        queue: Queue {
            waiting: 0,
            vectors: [0; 64],
            coded: 0,
            codes: [0; 64],
        },
        capabilities: Capabilities {
            pairs: [no_pair; 5],
            cr0: no_fixed,
            cr4: no_fixed,
        },
        xcr0: Xcr0 {
            value: 0,
            supported: 0,
        },
    }
}

// Refusal 2: no record holds this session.
pub fn is_unlawful(s: Session) -> bool
    ensures { result ≡ is_unlawful s }
{
    (4 < s.progress.phase) | (64 < s.queue.waiting) | (s.progress.entries < s.progress.held)
}
