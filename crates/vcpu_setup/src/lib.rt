// Setup: the capability words of a processor and the host's state become the fields of a session.
// Ported from setup_vmcs of x86_vcpu src/vmx/vcpu.rs (Copyright 2025 The Axvisor Team, Apache-2.0). Changed: MSRs, CPUID flags, the host's state and the
// frames' addresses come in as arguments; every refusal is found before a field is written.
#![tactic(auto)]

pub mod bitmaps;

ghost use Rattle.std.specs.Prelude.{◌≡◌, eqb, bit_and};
ghost use Rattle.definitions.specs.Refusals.{refusal_of};
ghost use Rattle.vmcs.specs.Writes.{applied};
ghost use Rattle.vcpu_events.specs.Queue.{answered_from};
ghost use Rattle.vcpu_setup.specs.Capability.{halves, used, fixed_words, pairs_of, olds_of, capabilities_of};
ghost use Rattle.vcpu_setup.specs.Words.{secondary_set, demands, setup_words, bits_refusal, words_refusal};
ghost use Rattle.vcpu_setup.specs.Writes.{host_set, cr_set, InRange, writes_of, segments_set, guest_set, control_set, vmcs_set};
ghost use Rattle.vcpu_setup.specs.Setup.{consistent, capability_refusal, setup_refusal, readied, setup_of};

use definitions::Refusal;
use vcpu_session::{Capabilities, Fixed, Phase, Session, Xcr0};
use vmcs::Vmcs;
use vmcs::controls::{CrWords, Pair};
use vmcs::flags::{
    Cr0Flags, EntryControls, ExitControls, PinbasedControls, PrimaryControls, SecondaryControls,
    VmxBasic, XCr0Flags,
};
use vmcs::names::{
    VmcsControl32, VmcsControl64, VmcsControlNW, VmcsGuest16, VmcsGuest32, VmcsGuest64,
    VmcsGuestNW, VmcsHost16, VmcsHost32, VmcsHost64, VmcsHostNW,
};

// The capability MSRs, whole (SDM 3D, appendix A), by number: 0x480 to 0x484, 0x486 to 0x489, 0x48B, 0x48D to 0x490.
#[derive(Clone, Copy)]
pub struct CapabilityMsrs {
    pub basic: u64,
    pub pinbased: u64,
    pub procbased: u64,
    pub exit: u64,
    pub entry: u64,
    pub cr0fixed0: u64,
    pub cr0fixed1: u64,
    pub cr4fixed0: u64,
    pub cr4fixed1: u64,
    pub procbased2: u64,
    pub truepinbased: u64,
    pub trueprocbased: u64,
    pub trueexit: u64,
    pub trueentry: u64,
}

// The host's state that setup_vmcs_host reads, in its order.
#[derive(Clone, Copy)]
pub struct HostWords {
    pub pat: u64,
    pub efer: u64,
    pub cr0: u64,
    pub cr3: u64,
    pub cr4: u64,
    pub es: u16,
    pub cs: u16,
    pub ss: u16,
    pub ds: u16,
    pub fs: u16,
    pub gs: u16,
    pub fsbase: u64,
    pub gsbase: u64,
    pub tr: u16,
    pub trbase: u64,
    pub gdtrbase: u64,
    pub idtrbase: u64,
    pub rip: u64,
}

// What CPUID offers the guest.
#[derive(Clone, Copy)]
pub struct Features {
    pub rdtscp: bool,
    pub invpcid: bool,
    pub xsaves: bool,
}

// Physical addresses: the EPT root, and the frames of I/O bitmap A, I/O bitmap B and the MSR bitmaps.
#[derive(Clone, Copy)]
pub struct Addresses {
    pub eptroot: u64,
    pub bitmapa: u64,
    pub bitmapb: u64,
    pub bitmapmsr: u64,
}

#[derive(Clone, Copy)]
pub struct Arguments {
    pub host: HostWords,
    pub entry: u64,
    pub pat: u64,
    pub addresses: Addresses,
    pub msrs: CapabilityMsrs,
    // The bits of XCR0 that the host supports.
    pub xcr0supported: u64,
    pub features: Features,
}

// ---- capabilities

// allowed-0 is the low half of a control's capability MSR, allowed-1 the high half.
fn halves_of(msr: u64) -> Pair
    ensures { result ≡ halves msr }
{
    Pair {
        allowed0: bits::low(msr),
        allowed1: bits::high(msr),
    }
}

// The word used, of a plain one and the TRUE one that supersedes it where the processor has it. Where it has none there is no MSR to read it from, so
// what stands in its place does not count.
#[tactic(auto, unfolding(crate::specs::Capability::used))]
fn word_used(basic: u64, plain: u64, superseding: u64) -> u64
    ensures { result ≡ used basic plain superseding }
{
    if (basic >> VmxBasic::VMX_FLEX_CONTROLS) % 2 == 1 {
        superseding
    } else {
        plain
    }
}

// The pairs used. The secondary word has no TRUE one.
fn pairs_of(m: CapabilityMsrs) -> [Pair; 5]
    ensures { result ≡ pairs_of m }
{
    [
        word_used(m.basic, m.pinbased, m.truepinbased),
        word_used(m.basic, m.procbased, m.trueprocbased),
        m.procbased2,
        word_used(m.basic, m.exit, m.trueexit),
        word_used(m.basic, m.entry, m.trueentry),
    ]
    .map(halves_of)
}

// The old words: the low halves of the plain words, whichever are used.
fn olds_of(m: CapabilityMsrs) -> [u32; 5]
    ensures { result ≡ olds_of m }
{
    [m.pinbased, m.procbased, m.procbased2, m.exit, m.entry].map(bits::low)
}

pub fn capabilities_of(m: CapabilityMsrs) -> Capabilities
    ensures { result ≡ capabilities_of m }
{
    Capabilities {
        pairs: pairs_of(m),
        cr0: Fixed {
            fixed0: m.cr0fixed0,
            fixed1: m.cr0fixed1,
        },
        cr4: Fixed {
            fixed0: m.cr4fixed0,
            fixed1: m.cr4fixed1,
        },
    }
}

// ---- the five words

const ENABLE_EPT: u32 = 1 << SecondaryControls::ENABLE_EPT;

const UNRESTRICTED_GUEST: u32 = 1 << SecondaryControls::UNRESTRICTED_GUEST;

// EPT and unrestricted guest, and what CPUID offers.
fn secondary_set(f: Features) -> u32
    ensures { result ≡ secondary_set f }
{
    u32::from(f.rdtscp) << SecondaryControls::ENABLE_RDTSCP
        | u32::from(f.invpcid) << SecondaryControls::ENABLE_INVPCID
        | u32::from(f.xsaves) << SecondaryControls::ENABLE_XSAVES_XRSTORS
        | (ENABLE_EPT | UNRESTRICTED_GUEST)
}

const PIN_SET: u32 = 1 << PinbasedControls::NMI_EXITING
    | 1 << PinbasedControls::EXTERNAL_INTERRUPT_EXITING;

const PRIMARY_SET: u32 = 1 << PrimaryControls::USE_IO_BITMAPS
    | 1 << PrimaryControls::USE_MSR_BITMAPS
    | 1 << PrimaryControls::SECONDARY_CONTROLS;

const PRIMARY_CLEAR: u32 = 1 << PrimaryControls::CR3_LOAD_EXITING
    | 1 << PrimaryControls::CR3_STORE_EXITING
    | 1 << PrimaryControls::CR8_LOAD_EXITING
    | 1 << PrimaryControls::CR8_STORE_EXITING;

const EXIT_SET: u32 = 1 << ExitControls::HOST_ADDRESS_SPACE_SIZE
    | 1 << ExitControls::ACK_INTERRUPT_ON_EXIT
    | 1 << ExitControls::SAVE_IA32_PAT
    | 1 << ExitControls::LOAD_IA32_PAT
    | 1 << ExitControls::SAVE_IA32_EFER
    | 1 << ExitControls::LOAD_IA32_EFER;

const ENTRY_SET: u32 = 1 << EntryControls::LOAD_IA32_PAT | 1 << EntryControls::LOAD_IA32_EFER;

// What setup asks of a control word: the bits to be set, and those to be cleared.
#[derive(Clone, Copy)]
struct Demand {
    set: u32,
    clear: u32,
}

// pin, primary, secondary, exit, entry
fn demands(f: Features) -> [Demand; 5]
    ensures { result ≡ demands f }
{
    let to_set = |set| Demand { set, clear: 0 };
    [
        to_set(PIN_SET),
        Demand {
            set: PRIMARY_SET,
            clear: PRIMARY_CLEAR,
        },
        to_set(secondary_set(f)),
        to_set(EXIT_SET),
        to_set(ENTRY_SET),
    ]
}

// The refusal of one word: 8, a bit to be set is not in allowed-1; 9, a bit to be cleared is in allowed-0.
#[tactic(auto, unfolding(crate::specs::Words::bits_refusal))]
fn bits_refusal(pair: Pair, demand: Demand) -> Result<(), Refusal>
    ensures { refusal_of result ≡ bits_refusal pair demand.set demand.clear }
{
    if demand.set & pair.allowed1 != demand.set {
        return Err(Refusal::Set);
    }
    if pair.allowed0 & demand.clear != 0 {
        return Err(Refusal::Clear);
    }
    Ok(())
}

#[tactic(auto, unfolding(crate::specs::Words::words_refusal))]
fn words_refusal(pairs: [Pair; 5], f: Features) -> Result<(), Refusal>
    ensures { refusal_of result ≡ words_refusal pairs f }
{
    for (pair, demand) in pairs.iter().zip(&demands(f)) {
        bits_refusal(*pair, *demand)?;
    }
    Ok(())
}

#[tactic(auto, unfolding(crate::specs::Words::setup_words))]
fn setup_words(pairs: [Pair; 5], olds: [u32; 5], f: Features) -> [u32; 5]
    ensures { result ≡ setup_words pairs olds f }
{
    let demands = demands(f);
    std::array::from_fn(|i| {
        vmcs::controls::control_word(pairs[i], olds[i], demands[i].set, demands[i].clear)
    })
}

// ---- the fields

// setup_vmcs_host
fn set_host(v: &mut Vmcs, h: HostWords)
    ensures { v.new ≡ host_set v.old h }
{
    v.w64[VmcsHost64::IA32_PAT] = h.pat;
    v.w64[VmcsHost64::IA32_EFER] = h.efer;
    v.natural[VmcsHostNW::CR0] = h.cr0;
    v.natural[VmcsHostNW::CR3] = h.cr3;
    v.natural[VmcsHostNW::CR4] = h.cr4;
    v.w16[VmcsHost16::ES_SELECTOR] = h.es;
    v.w16[VmcsHost16::CS_SELECTOR] = h.cs;
    v.w16[VmcsHost16::SS_SELECTOR] = h.ss;
    v.w16[VmcsHost16::DS_SELECTOR] = h.ds;
    v.w16[VmcsHost16::FS_SELECTOR] = h.fs;
    v.w16[VmcsHost16::GS_SELECTOR] = h.gs;
    v.natural[VmcsHostNW::FS_BASE] = h.fsbase;
    v.natural[VmcsHostNW::GS_BASE] = h.gsbase;
    v.w16[VmcsHost16::TR_SELECTOR] = h.tr;
    v.natural[VmcsHostNW::TR_BASE] = h.trbase;
    v.natural[VmcsHostNW::GDTR_BASE] = h.gdtrbase;
    v.natural[VmcsHostNW::IDTR_BASE] = h.idtrbase;
    v.natural[VmcsHostNW::RIP] = h.rip;
    v.natural[VmcsHostNW::IA32_SYSENTER_ESP] = 0;
    v.natural[VmcsHostNW::IA32_SYSENTER_EIP] = 0;
    v.w32[VmcsHost32::IA32_SYSENTER_CS] = 0;
}

// The fields of set_cr, for CR0 and for CR4
fn set_crs(v: &mut Vmcs, cr0: CrWords, cr4: CrWords)
    ensures { v.new ≡ cr_set v.old cr0 cr4 }
{
    v.natural[VmcsGuestNW::CR0] = cr0.value;
    v.natural[VmcsControlNW::CR0_READ_SHADOW] = cr0.shadow;
    v.natural[VmcsControlNW::CR0_GUEST_HOST_MASK] = cr0.mask;
    v.natural[VmcsGuestNW::CR4] = cr4.value;
    v.natural[VmcsControlNW::CR4_READ_SHADOW] = cr4.shadow;
    v.natural[VmcsControlNW::CR4_GUEST_HOST_MASK] = cr4.mask;
}

// The places of a segment's four fields, and its access rights.
#[derive(Clone, Copy)]
struct Segment {
    selector: usize,
    base: usize,
    limit: usize,
    rights: usize,
    access: u32,
}

const SEGMENTS: [Segment; 8] = [
    Segment {
        selector: VmcsGuest16::ES_SELECTOR,
        base: VmcsGuestNW::ES_BASE,
        limit: VmcsGuest32::ES_LIMIT,
        rights: VmcsGuest32::ES_ACCESS_RIGHTS,
        access: 0x93,
    },
    Segment {
        selector: VmcsGuest16::CS_SELECTOR,
        base: VmcsGuestNW::CS_BASE,
        limit: VmcsGuest32::CS_LIMIT,
        rights: VmcsGuest32::CS_ACCESS_RIGHTS,
        access: 0x9B,
    },
    Segment {
        selector: VmcsGuest16::SS_SELECTOR,
        base: VmcsGuestNW::SS_BASE,
        limit: VmcsGuest32::SS_LIMIT,
        rights: VmcsGuest32::SS_ACCESS_RIGHTS,
        access: 0x93,
    },
    Segment {
        selector: VmcsGuest16::DS_SELECTOR,
        base: VmcsGuestNW::DS_BASE,
        limit: VmcsGuest32::DS_LIMIT,
        rights: VmcsGuest32::DS_ACCESS_RIGHTS,
        access: 0x93,
    },
    Segment {
        selector: VmcsGuest16::FS_SELECTOR,
        base: VmcsGuestNW::FS_BASE,
        limit: VmcsGuest32::FS_LIMIT,
        rights: VmcsGuest32::FS_ACCESS_RIGHTS,
        access: 0x93,
    },
    Segment {
        selector: VmcsGuest16::GS_SELECTOR,
        base: VmcsGuestNW::GS_BASE,
        limit: VmcsGuest32::GS_LIMIT,
        rights: VmcsGuest32::GS_ACCESS_RIGHTS,
        access: 0x93,
    },
    Segment {
        selector: VmcsGuest16::TR_SELECTOR,
        base: VmcsGuestNW::TR_BASE,
        limit: VmcsGuest32::TR_LIMIT,
        rights: VmcsGuest32::TR_ACCESS_RIGHTS,
        access: 0x8B,
    },
    Segment {
        selector: VmcsGuest16::LDTR_SELECTOR,
        base: VmcsGuestNW::LDTR_BASE,
        limit: VmcsGuest32::LDTR_LIMIT,
        rights: VmcsGuest32::LDTR_ACCESS_RIGHTS,
        access: 0x82,
    },
];

// set_guest_segment!
fn set_segment(v: &mut Vmcs, g: Segment)
    requires { InRange g }
    ensures { v.new ≡ applied (writes_of g) v.old }
{
    v.w16[g.selector] = 0;
    v.natural[g.base] = 0;
    v.w32[g.limit] = 0xFFFF;
    v.w32[g.rights] = g.access;
}

fn set_segments(v: &mut Vmcs)
    ensures { v.new ≡ segments_set v.old }
{
    for g in SEGMENTS {
        set_segment(v, g);
    }
}

// The rest of setup_vmcs_guest
fn set_guest(v: &mut Vmcs, entry: u64, pat: u64)
    ensures { v.new ≡ guest_set v.old entry pat }
{
    v.natural[VmcsGuestNW::GDTR_BASE] = 0;
    v.w32[VmcsGuest32::GDTR_LIMIT] = 0xFFFF;
    v.natural[VmcsGuestNW::IDTR_BASE] = 0;
    v.w32[VmcsGuest32::IDTR_LIMIT] = 0xFFFF;
    v.natural[VmcsGuestNW::CR3] = 0;
    v.natural[VmcsGuestNW::DR7] = 0x400;
    v.natural[VmcsGuestNW::RSP] = 0;
    v.natural[VmcsGuestNW::RIP] = entry;
    v.natural[VmcsGuestNW::RFLAGS] = 0x2;
    v.natural[VmcsGuestNW::PENDING_DBG_EXCEPTIONS] = 0;
    v.natural[VmcsGuestNW::IA32_SYSENTER_ESP] = 0;
    v.natural[VmcsGuestNW::IA32_SYSENTER_EIP] = 0;
    v.w32[VmcsGuest32::IA32_SYSENTER_CS] = 0;
    v.w32[VmcsGuest32::INTERRUPTIBILITY_STATE] = 0;
    v.w32[VmcsGuest32::ACTIVITY_STATE] = 0;
    v.w32[VmcsGuest32::VMX_PREEMPTION_TIMER_VALUE] = vcpu_session::VMX_PREEMPTION_TIMER_SET_VALUE;
    v.w64[VmcsGuest64::LINK_PTR] = 0xFFFF_FFFF_FFFF_FFFF;
    v.w64[VmcsGuest64::IA32_DEBUGCTL] = 0;
    v.w64[VmcsGuest64::IA32_PAT] = pat;
    v.w64[VmcsGuest64::IA32_EFER] = 0;
}

// setup_vmcs_control, with the five words and the EPT pointer made
fn set_control(v: &mut Vmcs, words: [u32; 5], eptp: u64, a: Addresses)
    ensures { v.new ≡ control_set v.old words eptp a }
{
    v.w32[VmcsControl32::PINBASED_EXEC_CONTROLS] = words[0];
    v.w32[VmcsControl32::PRIMARY_PROCBASED_EXEC_CONTROLS] = words[1];
    v.w32[VmcsControl32::SECONDARY_PROCBASED_EXEC_CONTROLS] = words[2];
    v.w32[VmcsControl32::VMEXIT_CONTROLS] = words[3];
    v.w32[VmcsControl32::VMENTRY_CONTROLS] = words[4];
    v.w64[VmcsControl64::EPTP] = eptp;
    v.w32[VmcsControl32::VMEXIT_MSR_STORE_COUNT] = 0;
    v.w32[VmcsControl32::VMEXIT_MSR_LOAD_COUNT] = 0;
    v.w32[VmcsControl32::VMENTRY_MSR_LOAD_COUNT] = 0;
    v.w32[VmcsControl32::CR3_TARGET_COUNT] = 0;
    v.w32[VmcsControl32::EXCEPTION_BITMAP] = 0x40;
    v.w64[VmcsControl64::IO_BITMAP_A_ADDR] = a.bitmapa;
    v.w64[VmcsControl64::IO_BITMAP_B_ADDR] = a.bitmapb;
    v.w64[VmcsControl64::MSR_BITMAPS_ADDR] = a.bitmapmsr;
}

// CR0 at reset (SDM 3A, 9.1.1): NW, CD and ET.
const NW: u64 = 1 << Cr0Flags::NOT_WRITE_THROUGH;

const CD: u64 = 1 << Cr0Flags::CACHE_DISABLE;

const ET: u64 = 1 << Cr0Flags::EXTENSION_TYPE;

// All that setup_vmcs writes.
#[tactic(auto, unfolding(crate::specs::Writes::setup_writes))]
fn set_vmcs(v: &mut Vmcs, a: Arguments)
    ensures { v.new ≡ vmcs_set v.old a }
{
    let m = a.msrs;
    let cr0 = vmcs::controls::cr0_words(m.cr0fixed0, m.cr0fixed1, NW | CD | ET);
    let cr4 = vmcs::controls::cr4_words(m.cr4fixed0, m.cr4fixed1, 0);
    let words = setup_words(pairs_of(m), olds_of(m), a.features);
    let eptp = structs::ept_pointer(a.addresses.eptroot);
    set_host(v, a.host);
    set_crs(v, cr0, cr4);
    set_segments(v);
    set_guest(v, a.entry, a.pat);
    set_control(v, words, eptp, a.addresses);
}

// ---- setup

// What must be 1 may be 1.
fn is_within(must: u64, may: u64) -> bool
    ensures { result ≡ eqb (bit_and must may) must }
{
    must & may == must
}

// No bit must be 1 that may not be.
#[tactic(auto, unfolding(crate::specs::Setup::consistent))]
fn capabilities_consistent(c: Capabilities) -> bool
    ensures { result ≡ consistent c }
{
    c.pairs.iter().all(|p| is_within(u64::from(p.allowed0), u64::from(p.allowed1)))
        && is_within(c.cr0.fixed0, c.cr0.fixed1)
        && is_within(c.cr4.fixed0, c.cr4.fixed1)
}

// 6, inconsistent capabilities; 8 or 9, a word that cannot be had.
pub fn capability_refusal(c: Capabilities, f: Features) -> Result<(), Refusal>
    ensures { refusal_of result ≡ capability_refusal c f }
{
    if !capabilities_consistent(c) {
        return Err(Refusal::Pair);
    }
    words_refusal(c.pairs, f)
}

// 2; 1, not fresh; then those of the capabilities.
#[tactic(auto, unfolding(crate::specs::Setup::setup_refusal))]
fn setup_refusal(s: Session, c: Capabilities, f: Features) -> Result<(), Refusal>
    ensures { refusal_of result ≡ setup_refusal s c f }
{
    if vcpu_session::is_unlawful(s) {
        return Err(Refusal::Bytes);
    }
    if s.progress.phase != Phase::FRESH {
        return Err(Refusal::Phase);
    }
    capability_refusal(c, f)
}

// XCR0 at reset (SDM 3A, 2.6): X87 alone.
const X87: u64 = 1 << XCr0Flags::X87;

// The session of an accepted setup.
#[tactic(auto, unfolding(crate::specs::Setup::readied))]
pub fn ready(s: Session, a: Arguments, c: Capabilities) -> Session
    ensures { result ≡ readied s a c }
{
    let mut next = s;
    next.progress.phase = Phase::READY;
    set_vmcs(&mut next.vmcs, a);
    next.capabilities = c;
    next.xcr0 = Xcr0 {
        value: X87,
        supported: a.xcr0supported,
    };
    next
}

// Refusals: 2; 1, not fresh; 6, a pair or fixed bits that contradict themselves; then 8 or 9, word by word.
#[tactic(auto, using(definitions::proofs::RefusalLaws::some_at), unfolding(crate::specs::Setup::setup_of))]
pub fn setup(s: Session, a: Arguments) -> Result<Session, Refusal>
    ensures { answered_from s result ≡ setup_of s a }
{
    let capabilities = capabilities_of(a.msrs);
    setup_refusal(s, capabilities, a.features)?;
    Ok(ready(s, a, capabilities))
}
