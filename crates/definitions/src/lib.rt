// Exit reasons, interruption types and the word of an event.
// Ported from x86_vcpu src/vmx/definitions.rs and VmxInterruptInfo of src/vmx/vmcs.rs (Copyright 2025 The Axvisor Team, Apache-2.0).
// Changed: the texts of VM-instruction errors are left out, and vectors 1 and 21 are hardware exceptions, 21 with an error code.
#![tactic(auto)]

ghost use Rattle.std.specs.Prelude.{◌≡◌};
ghost use Rattle.definitions.specs.Interruption.{type_number, type_of, has_error_code, from_vector, is_soft, event_word};

pub mod exit_reason;
pub mod irq;
mod refusal;

pub use refusal::{Refusal, refusal_of, yes_no};

// The parts of an interruption word above its vector: the lowest bit of each (SDM 3C, 25.8.3 and 25.9.2).
#[derive(Drop)]
pub struct InterruptionBits {}

impl InterruptionBits {
    pub const TYPE: u32 = 8;

    // An error code is delivered, or was.
    pub const ERROR_CODE: u32 = 11;

    pub const VALID: u32 = 31;
}

const VALID: u32 = 1 << InterruptionBits::VALID;

// The interruption type, bits 8 to 10 of an interruption word (SDM 3C, 25.8.3 and 25.9.2), by its number there.
#[derive(Clone, Copy, Debug, PartialEq, Eq, Hash)]
pub enum VmxInterruptionType {
    External = 0,
    Reserved = 1,
    NMI = 2,
    HardException = 3,
    SoftIntr = 4,
    PrivSoftException = 5,
    SoftException = 6,
    Other = 7,
}

#[tactic(auto, unfolding(crate::specs::Interruption::type_number))]
impl From<VmxInterruptionType> for u32 {
    ghost from_gives = { λ int_type n. n ≡ type_number int_type };

    fn from(int_type: VmxInterruptionType) -> u32 {
        int_type as u32
    }
}

// The type of an interruption word.
#[tactic(auto, unfolding(crate::specs::Interruption::type_of))]
pub fn type_of(word: u32) -> VmxInterruptionType
    ensures { result ≡ type_of word }
{
    match (word >> InterruptionBits::TYPE) % 8 {
        0 => VmxInterruptionType::External,
        1 => VmxInterruptionType::Reserved,
        2 => VmxInterruptionType::NMI,
        3 => VmxInterruptionType::HardException,
        4 => VmxInterruptionType::SoftIntr,
        5 => VmxInterruptionType::PrivSoftException,
        6 => VmxInterruptionType::SoftException,
        _ => VmxInterruptionType::Other,
    }
}

// Whether an exception with this vector has an error code in protected mode.
pub fn vector_has_error_code(vector: u8) -> bool
    ensures { result ≡ has_error_code vector }
{
    matches!(
        vector,
        irq::DOUBLE_FAULT_VECTOR
            | irq::INVALID_TSS_VECTOR
            | irq::SEGMENT_NOT_PRESENT_VECTOR
            | irq::STACK_SEGEMENT_FAULT_VECTOR
            | irq::GENERAL_PROTECTION_FAULT_VECTOR
            | irq::PAGE_FAULT_VECTOR
            | irq::ALIGNMENT_CHECK_VECTOR
            | irq::CONTROL_PROTECTION_VECTOR
    )
}

// The type with which an event of this vector is injected.
#[tactic(auto, unfolding(crate::specs::Interruption::from_vector))]
pub fn from_vector(vector: u8) -> VmxInterruptionType
    ensures { result ≡ from_vector vector }
{
    match vector {
        irq::NONMASKABLE_INTERRUPT_VECTOR => VmxInterruptionType::NMI,
        irq::BREAKPOINT_VECTOR => VmxInterruptionType::SoftException,
        irq::OVERFLOW_VECTOR => VmxInterruptionType::SoftException,
        ..=irq::CONTROL_PROTECTION_VECTOR => VmxInterruptionType::HardException,
        ..=31 => VmxInterruptionType::Other,
        _ => VmxInterruptionType::External,
    }
}

// The types whose injection takes an instruction length: software interrupt, software exception, privileged software exception.
#[tactic(auto, unfolding(crate::specs::Interruption::is_soft))]
pub fn is_soft(int_type: VmxInterruptionType) -> bool
    ensures { result ≡ is_soft int_type }
{
    matches!(
        int_type,
        VmxInterruptionType::SoftIntr
            | VmxInterruptionType::PrivSoftException
            | VmxInterruptionType::SoftException
    )
}

// The entry interruption word of an event: the vector, its type, bit 11 where an error code goes in, and bit 31, valid.
pub fn event_word(vector: u8, has_code: bool) -> u32
    ensures { result ≡ event_word vector has_code }
{
    u32::from(vector)
        | u32::from(from_vector(vector)) << InterruptionBits::TYPE
        | u32::from(has_code) << InterruptionBits::ERROR_CODE
        | VALID
}
