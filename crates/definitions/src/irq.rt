// Vectors with a name (SDM 3A, table 6-1), as the Rust has them from the crate x86; it does not name 21.
pub const NONMASKABLE_INTERRUPT_VECTOR: u8 = 2;

pub const BREAKPOINT_VECTOR: u8 = 3;

pub const OVERFLOW_VECTOR: u8 = 4;

pub const DOUBLE_FAULT_VECTOR: u8 = 8;

pub const INVALID_TSS_VECTOR: u8 = 10;

pub const SEGMENT_NOT_PRESENT_VECTOR: u8 = 11;

pub const STACK_SEGEMENT_FAULT_VECTOR: u8 = 12;

pub const GENERAL_PROTECTION_FAULT_VECTOR: u8 = 13;

pub const PAGE_FAULT_VECTOR: u8 = 14;

pub const ALIGNMENT_CHECK_VECTOR: u8 = 17;

pub const CONTROL_PROTECTION_VECTOR: u8 = 21;
