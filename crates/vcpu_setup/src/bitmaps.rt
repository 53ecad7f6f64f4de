// The intercepts that setup adds to the frames.
// Ported from setup_io_bitmap and setup_msr_bitmap of x86_vcpu src/vmx/vcpu.rs (Copyright 2025 The Axvisor Team, Apache-2.0). Changed: the frames are
// the caller's slices, and a frame of another length is refused.
ghost use Rattle.std.specs.Prelude.{◌≡◌};
ghost use Rattle.definitions.specs.Refusals.{refusal_of};
ghost use Rattle.vcpu_setup.specs.Bitmaps.{io_bitmap_set, msr_bitmap_set};

use definitions::Refusal;
use structs::Access;

const QEMU_EXIT_PORT: u32 = 0x604;

const IA32_UMWAIT_CONTROL: u32 = 0xE1;
// The x2APIC registers that setup intercepts: 64 MSRs from 0x800 on (document 01, "Setup"). The manual keeps 0x800 to 0x8FF for them (SDM 3A, 11.12.1.2).
const X2APIC_MSRS: u32 = 0x800;

const X2APIC_COUNT: u32 = 64;

// Adds the port by which a guest ends QEMU: refusal 2.
#[tactic(auto, unfolding(crate::specs::Bitmaps::io_bitmap_set))]
pub fn setup_io_bitmap(a: &mut [u8], b: &mut [u8]) -> Result<(), Refusal>
    ensures { record { refusal = refusal_of result; a = a.new; b = b.new } ≡ io_bitmap_set a.old b.old }
{
    structs::set_intercept(a, b, QEMU_EXIT_PORT, true)
}

// Adds reads and writes of IA32_UMWAIT_CONTROL, since a Linux guest takes an exception from it otherwise (the Rust), and of the x2APIC registers: refusal 2. Both edits are refused alike.
#[tactic(auto, unfolding(crate::specs::Bitmaps::msr_bitmap_set))]
pub fn setup_msr_bitmap(frame: &mut [u8]) -> Result<(), Refusal>
    ensures { record { refusal = refusal_of result; frame = frame.new } ≡ msr_bitmap_set frame.old }
{
    let accesses = [Access::Read, Access::Write];
    structs::set_msr_intercepts(frame, &accesses, IA32_UMWAIT_CONTROL, 1, true)?;
    structs::set_msr_intercepts(frame, &accesses, X2APIC_MSRS, X2APIC_COUNT, true)
}
