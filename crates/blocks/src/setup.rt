// The byte block in which the host kernel hands setup its arguments.
ghost use Rattle.std.specs.Prelude.{◌≡◌, length};
ghost use Rattle.blocks.specs.SetupLayout.{LENGTH};
ghost use Rattle.blocks.specs.SetupBlock.{host_of, addresses_of, msrs_of, features_of, arguments_of, block_accepted};

use record::words::Stored;
use vcpu_setup::{Addresses, Arguments, CapabilityMsrs, Features, HostWords};

// How long a block is, and where each part starts. Nothing lies between the parts, and numbers stand least significant byte first.
#[derive(Drop)]
pub struct Layout {}

impl Layout {
    pub const LENGTH: usize = 273;

    // The host's state, in the order of setup_vmcs_host: numbers of 8 bytes, selectors of 2.
    pub const HOST_PAT: usize = 0;

    pub const HOST_EFER: usize = 8;

    pub const HOST_CR0: usize = 16;

    pub const HOST_CR3: usize = 24;

    pub const HOST_CR4: usize = 32;

    pub const HOST_ES: usize = 40;

    pub const HOST_CS: usize = 42;

    pub const HOST_SS: usize = 44;

    pub const HOST_DS: usize = 46;

    pub const HOST_FS: usize = 48;

    pub const HOST_GS: usize = 50;

    pub const HOST_FS_BASE: usize = 52;

    pub const HOST_GS_BASE: usize = 60;

    pub const HOST_TR: usize = 68;

    pub const HOST_TR_BASE: usize = 70;

    pub const HOST_GDTR_BASE: usize = 78;

    pub const HOST_IDTR_BASE: usize = 86;

    pub const HOST_RIP: usize = 94;

    // The guest's first RIP, and its IA32_PAT: 8 bytes each.
    pub const ENTRY: usize = 102;

    pub const GUEST_PAT: usize = 110;

    // Physical addresses of 8 bytes.
    pub const EPT_ROOT: usize = 118;

    pub const IO_BITMAP_A: usize = 126;

    pub const IO_BITMAP_B: usize = 134;

    pub const MSR_BITMAPS: usize = 142;

    // The capability MSRs, whole: 8 bytes each. IA32_VMX_BASIC is 0x480, and so on to 0x484; 0x486 to 0x489; 0x48B; 0x48D to 0x490.
    pub const VMX_BASIC: usize = 150;

    pub const PINBASED_CTLS: usize = 158;

    pub const PROCBASED_CTLS: usize = 166;

    pub const EXIT_CTLS: usize = 174;

    pub const ENTRY_CTLS: usize = 182;

    pub const CR0_FIXED0: usize = 190;

    pub const CR0_FIXED1: usize = 198;

    pub const CR4_FIXED0: usize = 206;

    pub const CR4_FIXED1: usize = 214;

    pub const PROCBASED_CTLS2: usize = 222;

    pub const TRUE_PINBASED_CTLS: usize = 230;

    pub const TRUE_PROCBASED_CTLS: usize = 238;

    pub const TRUE_EXIT_CTLS: usize = 246;

    pub const TRUE_ENTRY_CTLS: usize = 254;

    // The bits of XCR0 that the host supports: 8 bytes.
    pub const XCR0_SUPPORTED: usize = 262;

    // Yes/no bytes: what CPUID offers the guest.
    pub const RDTSCP: usize = 270;

    pub const INVPCID: usize = 271;

    pub const XSAVES: usize = 272;
}

// ---- Which bytes are a block.

// Refusal 2 is its negation.
#[tactic(auto, unfolding(crate::specs::SetupBlock::block_accepted))]
pub fn accepts(b: &[u8]) -> bool
    ensures { result ≡ block_accepted b.now }
{
    if b.len() != Layout::LENGTH {
        return false;
    }
    let rdtscp = u8::get(b, Layout::RDTSCP);
    let invpcid = u8::get(b, Layout::INVPCID);
    let xsaves = u8::get(b, Layout::XSAVES);
    (rdtscp <= 1) & (invpcid <= 1) & (xsaves <= 1)
}

// ---- Reading a block of the right length. As in record, the length is a clause: each caller holds a slice, whose length `accepts` tested.

#[tactic(auto, unfolding(crate::specs::SetupBlock::host_of))]
fn host_at(b: &[u8]) -> HostWords
    requires { length b.now ≡ LENGTH }
    ensures { result ≡ host_of b.now }
{
    HostWords {
        pat: u64::get(b, Layout::HOST_PAT),
        efer: u64::get(b, Layout::HOST_EFER),
        cr0: u64::get(b, Layout::HOST_CR0),
        cr3: u64::get(b, Layout::HOST_CR3),
        cr4: u64::get(b, Layout::HOST_CR4),
        es: u16::get(b, Layout::HOST_ES),
        cs: u16::get(b, Layout::HOST_CS),
        ss: u16::get(b, Layout::HOST_SS),
        ds: u16::get(b, Layout::HOST_DS),
        fs: u16::get(b, Layout::HOST_FS),
        gs: u16::get(b, Layout::HOST_GS),
        fsbase: u64::get(b, Layout::HOST_FS_BASE),
        gsbase: u64::get(b, Layout::HOST_GS_BASE),
        tr: u16::get(b, Layout::HOST_TR),
        trbase: u64::get(b, Layout::HOST_TR_BASE),
        gdtrbase: u64::get(b, Layout::HOST_GDTR_BASE),
        idtrbase: u64::get(b, Layout::HOST_IDTR_BASE),
        rip: u64::get(b, Layout::HOST_RIP),
    }
}

#[tactic(auto, unfolding(crate::specs::SetupBlock::addresses_of))]
fn addresses_at(b: &[u8]) -> Addresses
    requires { length b.now ≡ LENGTH }
    ensures { result ≡ addresses_of b.now }
{
    Addresses {
        eptroot: u64::get(b, Layout::EPT_ROOT),
        bitmapa: u64::get(b, Layout::IO_BITMAP_A),
        bitmapb: u64::get(b, Layout::IO_BITMAP_B),
        bitmapmsr: u64::get(b, Layout::MSR_BITMAPS),
    }
}

#[tactic(auto, unfolding(crate::specs::SetupBlock::msrs_of))]
fn msrs_at(b: &[u8]) -> CapabilityMsrs
    requires { length b.now ≡ LENGTH }
    ensures { result ≡ msrs_of b.now }
{
    CapabilityMsrs {
        basic: u64::get(b, Layout::VMX_BASIC),
        pinbased: u64::get(b, Layout::PINBASED_CTLS),
        procbased: u64::get(b, Layout::PROCBASED_CTLS),
        exit: u64::get(b, Layout::EXIT_CTLS),
        entry: u64::get(b, Layout::ENTRY_CTLS),
        cr0fixed0: u64::get(b, Layout::CR0_FIXED0),
        cr0fixed1: u64::get(b, Layout::CR0_FIXED1),
        cr4fixed0: u64::get(b, Layout::CR4_FIXED0),
        cr4fixed1: u64::get(b, Layout::CR4_FIXED1),
        procbased2: u64::get(b, Layout::PROCBASED_CTLS2),
        truepinbased: u64::get(b, Layout::TRUE_PINBASED_CTLS),
        trueprocbased: u64::get(b, Layout::TRUE_PROCBASED_CTLS),
        trueexit: u64::get(b, Layout::TRUE_EXIT_CTLS),
        trueentry: u64::get(b, Layout::TRUE_ENTRY_CTLS),
    }
}

#[tactic(auto, unfolding(crate::specs::SetupBlock::features_of))]
fn features_at(b: &[u8]) -> Features
    requires { length b.now ≡ LENGTH }
    ensures { result ≡ features_of b.now }
{
    Features {
        rdtscp: bool::get(b, Layout::RDTSCP),
        invpcid: bool::get(b, Layout::INVPCID),
        xsaves: bool::get(b, Layout::XSAVES),
    }
}

#[tactic(auto, unfolding(crate::specs::SetupBlock::arguments_of))]
pub fn arguments_at(b: &[u8]) -> Arguments
    requires { length b.now ≡ LENGTH }
    ensures { result ≡ arguments_of b.now }
{
    Arguments {
        host: host_at(b),
        entry: u64::get(b, Layout::ENTRY),
        pat: u64::get(b, Layout::GUEST_PAT),
        addresses: addresses_at(b),
        msrs: msrs_at(b),
        xcr0supported: u64::get(b, Layout::XCR0_SUPPORTED),
        features: features_at(b),
    }
}
