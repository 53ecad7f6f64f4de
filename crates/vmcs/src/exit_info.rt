// What the words of a VM exit say.
// Ported from `exit_info`, `interrupt_exit_info`, `io_exit_info` and `cr_access_info` of x86_vcpu src/vmx/vmcs.rs (Copyright 2025 The Axvisor Team,
// Apache-2.0). Changed: the words come in as numbers, an exit reason is one too, and instruction length, RIP and the error code itself are left out.
ghost use Rattle.std.specs.Prelude.{◌≡◌};
ghost use Rattle.vmcs.specs.ExitInfo.{exit_info, interrupt_exit_info, io_exit_info, cr_access_info};

use definitions::{InterruptionBits, VmxInterruptionType};

// The exit reason: the entry failed (SDM 3C, 25.9.1).
const ENTRY_FAILURE: u32 = 31;

// The qualification of an I/O instruction (SDM 3C, 28.2.1): the lowest bit of each part.
const IO_IN: u64 = 3;

const IO_STRING: u64 = 4;

const IO_REP: u64 = 5;

const IO_PORT: u64 = 16;

// The qualification of a control-register access (SDM 3C, 28.2.1): the lowest bit of each part above the register's number.
const CR_ACCESS_TYPE: u64 = 4;

const CR_LMSW_OPERAND: u64 = 6;

const CR_REGISTER: u64 = 8;

const CR_LMSW_SOURCE: u64 = 16;

// The exit reason (SDM 3C, 25.9.1).
#[derive(Clone, Copy)]
pub struct VmxExitInfo {
    // The entry failed, and no guest code ran.
    pub entry_failure: bool,
    // The basic exit reason.
    pub exit_reason: u32,
}

// An interruption word (SDM 3C, 25.9.2).
#[derive(Clone, Copy)]
pub struct VmxInterruptInfo {
    pub vector: u8,
    pub int_type: VmxInterruptionType,
    // Whether an error code comes with it.
    pub err_code: bool,
    pub valid: bool,
}

// The qualification of an I/O exit (SDM 3C, table 28-5).
#[derive(Clone, Copy)]
pub struct VmxIoExitInfo {
    // In bytes.
    pub access_size: u8,
    pub is_in: bool,
    pub is_string: bool,
    pub is_repeat: bool,
    pub port: u16,
}

// The qualification of an access to a control register (SDM 3C, table 28-3).
#[derive(Clone, Copy)]
pub struct CrAccessInfo {
    pub cr_number: u8,
    // 0 is a move to the register, 1 a move from it, 2 CLTS, 3 LMSW.
    pub access_type: u8,
    pub lmsw_op_type: u8,
    // The general-purpose register by its encoding, where 4 is RSP.
    pub gpr: u8,
    // The low byte of LMSW's operand.
    pub lmsw_source_data: u8,
}

pub fn exit_info(full_reason: u32) -> VmxExitInfo
    ensures { result ≡ exit_info full_reason }
{
    VmxExitInfo {
        entry_failure: (full_reason >> ENTRY_FAILURE) % 2 == 1,
        exit_reason: full_reason % 0x1_0000,
    }
}

pub fn interrupt_exit_info(info: u32) -> VmxInterruptInfo
    ensures { result ≡ interrupt_exit_info info }
{
    let int_type = definitions::type_of(info);
    VmxInterruptInfo {
        vector: (info % 0x100) as u8,
        int_type: int_type,
        err_code: (info >> InterruptionBits::ERROR_CODE) % 2 == 1,
        valid: (info >> InterruptionBits::VALID) % 2 == 1,
    }
}

pub fn io_exit_info(qualification: u64) -> VmxIoExitInfo
    ensures { result ≡ io_exit_info qualification }
{
    VmxIoExitInfo {
        access_size: (qualification % 8) as u8 + 1,
        is_in: (qualification >> IO_IN) % 2 == 1,
        is_string: (qualification >> IO_STRING) % 2 == 1,
        is_repeat: (qualification >> IO_REP) % 2 == 1,
        port: ((qualification >> IO_PORT) % 0x1_0000) as u16,
    }
}

pub fn cr_access_info(qualification: u64) -> CrAccessInfo
    ensures { result ≡ cr_access_info qualification }
{
    CrAccessInfo {
        cr_number: (qualification % 16) as u8,
        access_type: ((qualification >> CR_ACCESS_TYPE) % 4) as u8,
        lmsw_op_type: ((qualification >> CR_LMSW_OPERAND) % 2) as u8,
        gpr: ((qualification >> CR_REGISTER) % 16) as u8,
        lmsw_source_data: ((qualification >> CR_LMSW_SOURCE) % 0x100) as u8,
    }
}
