// CPUID as the guest sees it (`handle_cpuid`).
// Ported from `handle_cpuid` of x86_vcpu src/vmx/vcpu.rs (Copyright 2025 The Axvisor Team, Apache-2.0). Changed: the host's CPUID words come in as an
// argument, and the vendor text is three literals.
ghost use Rattle.std.specs.Prelude.{◌≡◌};
ghost use Rattle.vcpu_answers.specs.Cpuid.{vendor_info, feature_info, extended_features, frequency_info, leaf_words, with_words, handle_cpuid};

use regs::GeneralRegisters;
use vcpu_exit::CpuidWords;

const LEAF_FEATURE_INFO: u32 = 0x1;

const LEAF_STRUCTURED_EXTENDED_FEATURE_FLAGS_ENUMERATION: u32 = 0x7;

const EAX_FREQUENCY_INFO: u32 = 0x16;

const LEAF_HYPERVISOR_INFO: u32 = 0x4000_0000;

const LEAF_HYPERVISOR_FEATURE: u32 = 0x4000_0001;

// Leaf 1, ECX: VMX, and that a hypervisor is there. The Rust clears bit 7, which is MCE in EDX, in EAX.
const FEATURE_VMX: u32 = 1 << 5;

const FEATURE_HYPERVISOR: u32 = 1 << 31;

const FEATURE_MCE: u32 = 1 << 7;

// Leaf 7, ECX: WAITPKG and LA57.
const EXTENDED_WAITPKG: u32 = 1 << 5;

const EXTENDED_LA57: u32 = 1 << 16;

const EXTENDED_HIDDEN: u32 = EXTENDED_WAITPKG | EXTENDED_LA57;

const TIMER_FREQUENCY_MHZ: u32 = 3_000;

// The highest hypervisor leaf, and the vendor text, RVMRVMRVMRVM, as three words.
#[tactic(auto, unfolding(bits::specs::LittleEndian::number_of, crate::specs::Cpuid::vendor_info))]
fn vendor_info() -> CpuidWords
    ensures { result ≡ vendor_info }
{
    CpuidWords {
        eax: LEAF_HYPERVISOR_FEATURE,
        ebx: u32::from_le_bytes(*b"RVMR"),
        ecx: u32::from_le_bytes(*b"VMRV"),
        edx: u32::from_le_bytes(*b"MRVM"),
    }
}

// No VMX, a hypervisor is there; bit 7 is cleared in EAX as in the Rust, not in EDX.
fn feature_info(host: CpuidWords) -> CpuidWords
    ensures { result ≡ feature_info host }
{
    CpuidWords {
        eax: host.eax & !FEATURE_MCE,
        ecx: host.ecx & !FEATURE_VMX | FEATURE_HYPERVISOR,
        ..host
    }
}

// Where all of RCX is 0: no WAITPKG, no LA57.
#[tactic(auto, unfolding(crate::specs::Cpuid::extended_features))]
fn extended_features(rcx: u64, host: CpuidWords) -> CpuidWords
    ensures { result ≡ extended_features rcx host }
{
    if rcx == 0 {
        CpuidWords {
            ecx: host.ecx & !EXTENDED_HIDDEN,
            ..host
        }
    } else {
        host
    }
}

// A frequency where the host gives none.
#[tactic(auto, unfolding(crate::specs::Cpuid::frequency_info))]
fn frequency_info(host: CpuidWords) -> CpuidWords
    ensures { result ≡ frequency_info host }
{
    if host.eax == 0 {
        CpuidWords {
            eax: TIMER_FREQUENCY_MHZ,
            ..host
        }
    } else {
        host
    }
}

// The guest's words for a leaf, of the host's.
#[tactic(auto, unfolding(crate::specs::Cpuid::leaf_words))]
fn leaf_words(leaf: u32, rcx: u64, host: CpuidWords) -> CpuidWords
    ensures { result ≡ leaf_words leaf rcx host }
{
    match leaf {
        LEAF_FEATURE_INFO => feature_info(host),
        LEAF_STRUCTURED_EXTENDED_FEATURE_FLAGS_ENUMERATION => extended_features(rcx, host),
        EAX_FREQUENCY_INFO => frequency_info(host),
        LEAF_HYPERVISOR_INFO => vendor_info(),
        LEAF_HYPERVISOR_FEATURE => CpuidWords {
            eax: 0,
            ebx: 0,
            ecx: 0,
            edx: 0,
        },
        _ => host,
    }
}

// The registers with the words in EAX, EBX, ECX and EDX, the high halves zero.
#[tactic(auto, unfolding(crate::specs::Cpuid::with_words))]
fn with_words(g: GeneralRegisters, words: CpuidWords) -> GeneralRegisters
    ensures { result ≡ with_words g words }
{
    GeneralRegisters {
        rax: u64::from(words.eax),
        rbx: u64::from(words.ebx),
        rcx: u64::from(words.ecx),
        rdx: u64::from(words.edx),
        ..g
    }
}

// The registers after CPUID, given the host's words for the same EAX and ECX. The leaf is EAX.
#[tactic(auto, unfolding(crate::specs::Cpuid::handle_cpuid))]
pub fn handle_cpuid(g: GeneralRegisters, host: CpuidWords) -> GeneralRegisters
    ensures { result ≡ handle_cpuid g host }
{
    with_words(g, leaf_words(bits::low(g.rax), g.rcx, host))
}
