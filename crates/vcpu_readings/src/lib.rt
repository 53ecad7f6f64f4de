// Readings of the guest's mode, of its page tables, and of a linear address.
// Ported from x86_vcpu src/vmx/vcpu.rs and src/ept.rs (Copyright 2025 The Axvisor Team, Apache-2.0). Changed: the fields and the host's EFER come in
// as numbers, and a sum that passes 2^64 - 1 is refused.
#![tactic(auto)]

ghost use Rattle.std.specs.Prelude.{◌≡◌};
ghost use Rattle.definitions.specs.Refusals.{numbered};
ghost use Rattle.vcpu_readings.specs.Readings.{cpu_mode, paging_level, walk_width, walk_pse, walk_nxe, page_walk, segment_base, linear_address, mode_number};

use definitions::Refusal;
use vmcs::flags::{AccessRights, Cr0Flags, Cr4Flags, EferFlags};

// The mode of the guest's CPU, by its number in the C interface.
#[derive(Clone, Copy, Debug, PartialEq, Eq, Hash)]
pub enum VmCpuMode {
    Real = 0,
    Protected = 1,
    Compatibility = 2,
    Mode64 = 3,
}

#[tactic(auto, unfolding(crate::specs::Readings::mode_number))]
impl From<VmCpuMode> for u32 {
    ghost from_gives = { λ mode n. n ≡ mode_number mode };

    fn from(mode: VmCpuMode) -> u32 {
        mode as u32
    }
}

// What a walk of the guest's page tables starts from.
#[derive(Clone, Copy)]
pub struct GuestPageWalkInfo {
    pub top_entry: u64,
    pub level: u8,
    pub width: u8,
    pub is_user_mode_access: bool,
    pub is_write_access: bool,
    pub is_inst_fetch: bool,
    pub pse: bool,
    pub wp: bool,
    pub nxe: bool,
    pub is_smap_on: bool,
    pub is_smep_on: bool,
}

// The fields of the guest that its paging depends on.
#[derive(Clone, Copy)]
pub struct PagingWords {
    pub cr0: u64,
    pub cr3: u64,
    pub cr4: u64,
    pub efer: u64,
    pub ssrights: u32,
}

// The mode, from the host's EFER, the guest's CS access rights and CR0 (`get_cpu_mode`).
#[tactic(auto, unfolding(crate::specs::Readings::cpu_mode))]
pub fn cpu_mode(efer: u64, csrights: u32, cr0: u64) -> VmCpuMode
    ensures { result ≡ cpu_mode efer csrights cr0 }
{
    if (efer >> EferFlags::LONG_MODE_ACTIVE) % 2 == 1 {
        if (csrights >> AccessRights::LONG_MODE) % 2 == 1 {
            VmCpuMode::Mode64
        } else {
            VmCpuMode::Compatibility
        }
    } else if cr0 % 2 == 1 {
        VmCpuMode::Protected
    } else {
        VmCpuMode::Real
    }
}

// Levels of the guest's page tables: 0 without paging (`get_paging_level`).
#[tactic(auto, unfolding(crate::specs::Readings::paging_level))]
fn paging_level(w: PagingWords) -> u8
    ensures { result ≡ paging_level w }
{
    if (w.cr0 >> Cr0Flags::PAGING) % 2 == 0 {
        0
    } else if (w.cr4 >> Cr4Flags::PHYSICAL_ADDRESS_EXTENSION) % 2 == 0 {
        2
    } else if (w.efer >> EferFlags::LONG_MODE_ACTIVE) % 2 == 1 {
        4
    } else {
        3
    }
}

#[tactic(auto, unfolding(crate::specs::Readings::walk_width))]
fn walk_width(level: u8) -> u8
    ensures { result ≡ walk_width level }
{
    match level {
        0 => 0,
        2 => 10,
        _ => 9,
    }
}

// CR4.PSE at level 2, else yes.
#[tactic(auto, unfolding(crate::specs::Readings::walk_pse))]
fn walk_pse(level: u8, cr4: u64) -> bool
    ensures { result ≡ walk_pse level cr4 }
{
    level != 2 || (cr4 >> Cr4Flags::PAGE_SIZE_EXTENSION) % 2 == 1
}

// EFER.NXE, but at level 2 no.
#[tactic(auto, unfolding(crate::specs::Readings::walk_nxe))]
fn walk_nxe(level: u8, efer: u64) -> bool
    ensures { result ≡ walk_nxe level efer }
{
    level != 2 && (efer >> EferFlags::NO_EXECUTE_ENABLE) % 2 == 1
}

// What a walk of the guest's page tables starts from (`get_ptw_info`).
#[tactic(auto, unfolding(crate::specs::Readings::page_walk))]
pub fn page_walk(w: PagingWords) -> GuestPageWalkInfo
    ensures { result ≡ page_walk w }
{
    let level = paging_level(w);
    GuestPageWalkInfo {
        top_entry: w.cr3,
        level,
        width: walk_width(level),
        is_user_mode_access: (w.ssrights >> AccessRights::DPL) % 4 == 3,
        is_write_access: false,
        is_inst_fetch: false,
        pse: walk_pse(level, w.cr4),
        wp: (w.cr0 >> Cr0Flags::WRITE_PROTECT) % 2 == 1,
        nxe: walk_nxe(level, w.efer),
        is_smap_on: (w.cr4 >> Cr4Flags::SUPERVISOR_MODE_ACCESS_PREVENTION) % 2 == 1,
        is_smep_on: (w.cr4 >> Cr4Flags::SUPERVISOR_MODE_EXECUTION_PROTECTION) % 2 == 1,
    }
}

// 0 in 64-bit mode, else the base of CS.
#[tactic(auto, unfolding(crate::specs::Readings::segment_base))]
fn segment_base(mode: VmCpuMode, csbase: u64) -> u64
    ensures { result ≡ segment_base mode csbase }
{
    match mode {
        VmCpuMode::Mode64 => 0,
        VmCpuMode::Real | VmCpuMode::Protected | VmCpuMode::Compatibility => csbase,
    }
}

// A guest address with the base of CS added, but in 64-bit mode none (`gla2gva`). Refusal 17: the sum passes 2^64 - 1.
#[tactic(auto, unfolding(crate::specs::Readings::linear_address))]
pub fn linear_address(mode: VmCpuMode, csbase: u64, address: u64) -> Result<u64, Refusal>
    ensures { numbered result ≡ linear_address mode csbase address }
{
    let base = segment_base(mode, csbase);
    address.checked_add(base).ok_or(Refusal::Sum)
}
