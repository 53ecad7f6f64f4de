// The byte block in which the host kernel hands an exit report.
ghost use Rattle.std.specs.Prelude.{◌≡◌, length};
ghost use Rattle.blocks.specs.ReportLayout.{LENGTH};
ghost use Rattle.blocks.specs.ReportBlock.{cpuid_of, report_of, block_accepted};

use record::words::Stored;
use regs::GeneralRegisters;
use vcpu_exit::{CpuidWords, Report};

// How long a block is, and where each part starts. Nothing lies between the parts, and numbers stand least significant byte first.
#[derive(Drop)]
pub struct Layout {}

impl Layout {
    pub const LENGTH: usize = 244;

    // Sixteen registers of 8 bytes, in the order of their encoding.
    pub const REGS: usize = 0;

    // The guest's fields.
    pub const RIP: usize = 128;

    pub const RSP: usize = 136;

    pub const RFLAGS: usize = 144;

    pub const INTERRUPTIBILITY: usize = 152;

    pub const CR0: usize = 156;

    pub const CR3: usize = 164;

    pub const CR4: usize = 172;

    pub const EFER: usize = 180;

    pub const CS_BASE: usize = 188;

    pub const CS_RIGHTS: usize = 196;

    pub const SS_RIGHTS: usize = 200;

    // The exit words: the full reason, the qualification, the instruction's length, the interruption information and its error code.
    pub const REASON: usize = 204;

    pub const QUALIFICATION: usize = 208;

    pub const INSTRUCTION_LENGTH: usize = 216;

    pub const INTERRUPTION: usize = 220;

    pub const ERROR_CODE: usize = 224;

    // What CPUID gives the host for the guest's EAX and ECX.
    pub const CPUID_EAX: usize = 228;

    pub const CPUID_EBX: usize = 232;

    pub const CPUID_ECX: usize = 236;

    pub const CPUID_EDX: usize = 240;
}

// Refusal 2 is its negation: a wrong length.
pub fn accepts(b: &[u8]) -> bool
    ensures { result ≡ block_accepted b.now }
{
    b.len() == Layout::LENGTH
}

// ---- Reading a block of the right length. As in record, the length is a clause: each caller holds a slice, whose length `accepts` tested.

#[tactic(auto, unfolding(crate::specs::ReportBlock::cpuid_of))]
fn cpuid_at(b: &[u8]) -> CpuidWords
    requires { length b.now ≡ LENGTH }
    ensures { result ≡ cpuid_of b.now }
{
    CpuidWords {
        eax: u32::get(b, Layout::CPUID_EAX),
        ebx: u32::get(b, Layout::CPUID_EBX),
        ecx: u32::get(b, Layout::CPUID_ECX),
        edx: u32::get(b, Layout::CPUID_EDX),
    }
}

#[tactic(auto, unfolding(crate::specs::ReportBlock::report_of))]
pub fn report_at(b: &[u8]) -> Report
    requires { length b.now ≡ LENGTH }
    ensures { result ≡ report_of b.now }
{
    Report {
        regs: GeneralRegisters::get(b, Layout::REGS),
        rip: u64::get(b, Layout::RIP),
        rsp: u64::get(b, Layout::RSP),
        rflags: u64::get(b, Layout::RFLAGS),
        interruptibility: u32::get(b, Layout::INTERRUPTIBILITY),
        cr0: u64::get(b, Layout::CR0),
        cr3: u64::get(b, Layout::CR3),
        cr4: u64::get(b, Layout::CR4),
        efer: u64::get(b, Layout::EFER),
        csbase: u64::get(b, Layout::CS_BASE),
        csrights: u32::get(b, Layout::CS_RIGHTS),
        ssrights: u32::get(b, Layout::SS_RIGHTS),
        reason: u32::get(b, Layout::REASON),
        qualification: u64::get(b, Layout::QUALIFICATION),
        length: u32::get(b, Layout::INSTRUCTION_LENGTH),
        interruption: u32::get(b, Layout::INTERRUPTION),
        code: u32::get(b, Layout::ERROR_CODE),
        cpuid: cpuid_at(b),
    }
}
