// The basic exit reasons (SDM 3D, appendix C) by their names in definitions.rs.
// Ported from the enum VmxExitReason of x86_vcpu src/vmx/definitions.rs (Copyright 2025 The Axvisor Team, Apache-2.0). Changed: reserved numbers have no name.
ghost use Rattle.std.specs.Prelude.{◌≡◌};
ghost use Rattle.definitions.specs.ExitReasons.{exit_reasons};

#[derive(Clone, Copy, Debug, PartialEq, Eq, Hash)]
pub enum VmxExitReason {
    EXCEPTION_NMI = 0,

    EXTERNAL_INTERRUPT = 1,

    TRIPLE_FAULT = 2,

    INIT = 3,

    SIPI = 4,

    SMI = 5,

    OTHER_SMI = 6,

    INTERRUPT_WINDOW = 7,

    NMI_WINDOW = 8,

    TASK_SWITCH = 9,

    CPUID = 10,

    GETSEC = 11,

    HLT = 12,

    INVD = 13,

    INVLPG = 14,

    RDPMC = 15,

    RDTSC = 16,

    RSM = 17,

    VMCALL = 18,

    VMCLEAR = 19,

    VMLAUNCH = 20,

    VMPTRLD = 21,

    VMPTRST = 22,

    VMREAD = 23,

    VMRESUME = 24,

    VMWRITE = 25,

    VMOFF = 26,

    VMON = 27,

    CR_ACCESS = 28,

    DR_ACCESS = 29,

    IO_INSTRUCTION = 30,

    MSR_READ = 31,

    MSR_WRITE = 32,

    INVALID_GUEST_STATE = 33,

    MSR_LOAD_FAIL = 34,

    MWAIT_INSTRUCTION = 36,

    MONITOR_TRAP_FLAG = 37,

    MONITOR_INSTRUCTION = 39,

    PAUSE_INSTRUCTION = 40,

    MCE_DURING_VMENTRY = 41,

    TPR_BELOW_THRESHOLD = 43,

    APIC_ACCESS = 44,

    VIRTUALIZED_EOI = 45,

    GDTR_IDTR = 46,

    LDTR_TR = 47,

    EPT_VIOLATION = 48,

    EPT_MISCONFIG = 49,

    INVEPT = 50,

    RDTSCP = 51,

    PREEMPTION_TIMER = 52,

    INVVPID = 53,

    WBINVD = 54,

    XSETBV = 55,

    APIC_WRITE = 56,

    RDRAND = 57,

    INVPCID = 58,

    VMFUNC = 59,

    ENCLS = 60,

    RDSEED = 61,

    PML_FULL = 62,

    XSAVES = 63,

    XRSTORS = 64,

    PCONFIG = 65,

    SPP_EVENT = 66,

    UMWAIT = 67,

    TPAUSE = 68,

    LOADIWKEY = 69,
}

const EXIT_REASONS: [u32; 67] = [
    VmxExitReason::EXCEPTION_NMI as u32,
    VmxExitReason::EXTERNAL_INTERRUPT as u32,
    VmxExitReason::TRIPLE_FAULT as u32,
    VmxExitReason::INIT as u32,
    VmxExitReason::SIPI as u32,
    VmxExitReason::SMI as u32,
    VmxExitReason::OTHER_SMI as u32,
    VmxExitReason::INTERRUPT_WINDOW as u32,
    VmxExitReason::NMI_WINDOW as u32,
    VmxExitReason::TASK_SWITCH as u32,
    VmxExitReason::CPUID as u32,
    VmxExitReason::GETSEC as u32,
    VmxExitReason::HLT as u32,
    VmxExitReason::INVD as u32,
    VmxExitReason::INVLPG as u32,
    VmxExitReason::RDPMC as u32,
    VmxExitReason::RDTSC as u32,
    VmxExitReason::RSM as u32,
    VmxExitReason::VMCALL as u32,
    VmxExitReason::VMCLEAR as u32,
    VmxExitReason::VMLAUNCH as u32,
    VmxExitReason::VMPTRLD as u32,
    VmxExitReason::VMPTRST as u32,
    VmxExitReason::VMREAD as u32,
    VmxExitReason::VMRESUME as u32,
    VmxExitReason::VMWRITE as u32,
    VmxExitReason::VMOFF as u32,
    VmxExitReason::VMON as u32,
    VmxExitReason::CR_ACCESS as u32,
    VmxExitReason::DR_ACCESS as u32,
    VmxExitReason::IO_INSTRUCTION as u32,
    VmxExitReason::MSR_READ as u32,
    VmxExitReason::MSR_WRITE as u32,
    VmxExitReason::INVALID_GUEST_STATE as u32,
    VmxExitReason::MSR_LOAD_FAIL as u32,
    VmxExitReason::MWAIT_INSTRUCTION as u32,
    VmxExitReason::MONITOR_TRAP_FLAG as u32,
    VmxExitReason::MONITOR_INSTRUCTION as u32,
    VmxExitReason::PAUSE_INSTRUCTION as u32,
    VmxExitReason::MCE_DURING_VMENTRY as u32,
    VmxExitReason::TPR_BELOW_THRESHOLD as u32,
    VmxExitReason::APIC_ACCESS as u32,
    VmxExitReason::VIRTUALIZED_EOI as u32,
    VmxExitReason::GDTR_IDTR as u32,
    VmxExitReason::LDTR_TR as u32,
    VmxExitReason::EPT_VIOLATION as u32,
    VmxExitReason::EPT_MISCONFIG as u32,
    VmxExitReason::INVEPT as u32,
    VmxExitReason::RDTSCP as u32,
    VmxExitReason::PREEMPTION_TIMER as u32,
    VmxExitReason::INVVPID as u32,
    VmxExitReason::WBINVD as u32,
    VmxExitReason::XSETBV as u32,
    VmxExitReason::APIC_WRITE as u32,
    VmxExitReason::RDRAND as u32,
    VmxExitReason::INVPCID as u32,
    VmxExitReason::VMFUNC as u32,
    VmxExitReason::ENCLS as u32,
    VmxExitReason::RDSEED as u32,
    VmxExitReason::PML_FULL as u32,
    VmxExitReason::XSAVES as u32,
    VmxExitReason::XRSTORS as u32,
    VmxExitReason::PCONFIG as u32,
    VmxExitReason::SPP_EVENT as u32,
    VmxExitReason::UMWAIT as u32,
    VmxExitReason::TPAUSE as u32,
    VmxExitReason::LOADIWKEY as u32,
];

// Every name in the order of its number: the contract ties each to its number.
#[tactic(auto, unfolding(crate::specs::ExitReasons::exit_reasons))]
pub fn exit_reasons() -> [u32; 67]
    ensures { result ≡ exit_reasons }
{
    EXIT_REASONS
}
