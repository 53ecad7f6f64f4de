// The fields by their names in vmcs.rs. A value is the field's place in the array of its width.
// Ported from the enums of x86_vcpu src/vmx/vmcs.rs (Copyright 2025 The Axvisor Team, Apache-2.0). Changed: a name is a place and not an encoding, and VmcsControl16 is left out.

#[derive(Drop)]
pub struct VmcsGuest16 {}

impl VmcsGuest16 {
    pub const ES_SELECTOR: usize = 0;

    pub const CS_SELECTOR: usize = 1;

    pub const SS_SELECTOR: usize = 2;

    pub const DS_SELECTOR: usize = 3;

    pub const FS_SELECTOR: usize = 4;

    pub const GS_SELECTOR: usize = 5;

    pub const LDTR_SELECTOR: usize = 6;

    pub const TR_SELECTOR: usize = 7;

    pub const INTERRUPT_STATUS: usize = 8;

    pub const PML_INDEX: usize = 9;
}

#[derive(Drop)]
pub struct VmcsHost16 {}

impl VmcsHost16 {
    pub const ES_SELECTOR: usize = 10;

    pub const CS_SELECTOR: usize = 11;

    pub const SS_SELECTOR: usize = 12;

    pub const DS_SELECTOR: usize = 13;

    pub const FS_SELECTOR: usize = 14;

    pub const GS_SELECTOR: usize = 15;

    pub const TR_SELECTOR: usize = 16;
}

#[derive(Drop)]
pub struct VmcsControl64 {}

impl VmcsControl64 {
    pub const IO_BITMAP_A_ADDR: usize = 0;

    pub const IO_BITMAP_B_ADDR: usize = 1;

    pub const MSR_BITMAPS_ADDR: usize = 2;

    pub const VMEXIT_MSR_STORE_ADDR: usize = 3;

    pub const VMEXIT_MSR_LOAD_ADDR: usize = 4;

    pub const VMENTRY_MSR_LOAD_ADDR: usize = 5;

    pub const EXECUTIVE_VMCS_PTR: usize = 6;

    pub const PML_ADDR: usize = 7;

    pub const TSC_OFFSET: usize = 8;

    pub const VIRT_APIC_ADDR: usize = 9;

    pub const APIC_ACCESS_ADDR: usize = 10;

    pub const POSTED_INTERRUPT_DESC_ADDR: usize = 11;

    pub const VM_FUNCTION_CONTROLS: usize = 12;

    pub const EPTP: usize = 13;

    pub const EOI_EXIT0: usize = 14;

    pub const EOI_EXIT1: usize = 15;

    pub const EOI_EXIT2: usize = 16;

    pub const EOI_EXIT3: usize = 17;

    pub const EPTP_LIST_ADDR: usize = 18;

    pub const VMREAD_BITMAP_ADDR: usize = 19;

    pub const VMWRITE_BITMAP_ADDR: usize = 20;

    pub const VIRT_EXCEPTION_INFO_ADDR: usize = 21;

    pub const XSS_EXITING_BITMAP: usize = 22;

    pub const ENCLS_EXITING_BITMAP: usize = 23;

    pub const SUBPAGE_PERM_TABLE_PTR: usize = 24;

    pub const TSC_MULTIPLIER: usize = 25;
}

#[derive(Drop)]
pub struct VmcsReadOnly64 {}

impl VmcsReadOnly64 {
    pub const GUEST_PHYSICAL_ADDR: usize = 26;
}

#[derive(Drop)]
pub struct VmcsGuest64 {}

impl VmcsGuest64 {
    pub const LINK_PTR: usize = 27;

    pub const IA32_DEBUGCTL: usize = 28;

    pub const IA32_PAT: usize = 29;

    pub const IA32_EFER: usize = 30;

    pub const IA32_PERF_GLOBAL_CTRL: usize = 31;

    pub const PDPTE0: usize = 32;

    pub const PDPTE1: usize = 33;

    pub const PDPTE2: usize = 34;

    pub const PDPTE3: usize = 35;

    pub const IA32_BNDCFGS: usize = 36;

    pub const IA32_RTIT_CTL: usize = 37;
}

#[derive(Drop)]
pub struct VmcsHost64 {}

impl VmcsHost64 {
    pub const IA32_PAT: usize = 38;

    pub const IA32_EFER: usize = 39;

    pub const IA32_PERF_GLOBAL_CTRL: usize = 40;
}

#[derive(Drop)]
pub struct VmcsControl32 {}

impl VmcsControl32 {
    pub const PINBASED_EXEC_CONTROLS: usize = 0;

    pub const PRIMARY_PROCBASED_EXEC_CONTROLS: usize = 1;

    pub const EXCEPTION_BITMAP: usize = 2;

    pub const PAGE_FAULT_ERR_CODE_MASK: usize = 3;

    pub const PAGE_FAULT_ERR_CODE_MATCH: usize = 4;

    pub const CR3_TARGET_COUNT: usize = 5;

    pub const VMEXIT_CONTROLS: usize = 6;

    pub const VMEXIT_MSR_STORE_COUNT: usize = 7;

    pub const VMEXIT_MSR_LOAD_COUNT: usize = 8;

    pub const VMENTRY_CONTROLS: usize = 9;

    pub const VMENTRY_MSR_LOAD_COUNT: usize = 10;

    pub const VMENTRY_INTERRUPTION_INFO_FIELD: usize = 11;

    pub const VMENTRY_EXCEPTION_ERR_CODE: usize = 12;

    pub const VMENTRY_INSTRUCTION_LEN: usize = 13;

    pub const TPR_THRESHOLD: usize = 14;

    pub const SECONDARY_PROCBASED_EXEC_CONTROLS: usize = 15;

    pub const PLE_GAP: usize = 16;

    pub const PLE_WINDOW: usize = 17;
}

#[derive(Drop)]
pub struct VmcsReadOnly32 {}

impl VmcsReadOnly32 {
    pub const VM_INSTRUCTION_ERROR: usize = 18;

    pub const EXIT_REASON: usize = 19;

    pub const VMEXIT_INTERRUPTION_INFO: usize = 20;

    pub const VMEXIT_INTERRUPTION_ERR_CODE: usize = 21;

    pub const IDT_VECTORING_INFO: usize = 22;

    pub const IDT_VECTORING_ERR_CODE: usize = 23;

    pub const VMEXIT_INSTRUCTION_LEN: usize = 24;

    pub const VMEXIT_INSTRUCTION_INFO: usize = 25;
}

#[derive(Drop)]
pub struct VmcsGuest32 {}

impl VmcsGuest32 {
    pub const ES_LIMIT: usize = 26;

    pub const CS_LIMIT: usize = 27;

    pub const SS_LIMIT: usize = 28;

    pub const DS_LIMIT: usize = 29;

    pub const FS_LIMIT: usize = 30;

    pub const GS_LIMIT: usize = 31;

    pub const LDTR_LIMIT: usize = 32;

    pub const TR_LIMIT: usize = 33;

    pub const GDTR_LIMIT: usize = 34;

    pub const IDTR_LIMIT: usize = 35;

    pub const ES_ACCESS_RIGHTS: usize = 36;

    pub const CS_ACCESS_RIGHTS: usize = 37;

    pub const SS_ACCESS_RIGHTS: usize = 38;

    pub const DS_ACCESS_RIGHTS: usize = 39;

    pub const FS_ACCESS_RIGHTS: usize = 40;

    pub const GS_ACCESS_RIGHTS: usize = 41;

    pub const LDTR_ACCESS_RIGHTS: usize = 42;

    pub const TR_ACCESS_RIGHTS: usize = 43;

    pub const INTERRUPTIBILITY_STATE: usize = 44;

    pub const ACTIVITY_STATE: usize = 45;

    pub const SMBASE: usize = 46;

    pub const IA32_SYSENTER_CS: usize = 47;

    pub const VMX_PREEMPTION_TIMER_VALUE: usize = 48;
}

#[derive(Drop)]
pub struct VmcsHost32 {}

impl VmcsHost32 {
    pub const IA32_SYSENTER_CS: usize = 49;
}

#[derive(Drop)]
pub struct VmcsControlNW {}

impl VmcsControlNW {
    pub const CR0_GUEST_HOST_MASK: usize = 0;

    pub const CR4_GUEST_HOST_MASK: usize = 1;

    pub const CR0_READ_SHADOW: usize = 2;

    pub const CR4_READ_SHADOW: usize = 3;

    pub const CR3_TARGET_VALUE0: usize = 4;

    pub const CR3_TARGET_VALUE1: usize = 5;

    pub const CR3_TARGET_VALUE2: usize = 6;

    pub const CR3_TARGET_VALUE3: usize = 7;
}

#[derive(Drop)]
pub struct VmcsReadOnlyNW {}

impl VmcsReadOnlyNW {
    pub const EXIT_QUALIFICATION: usize = 8;

    pub const IO_RCX: usize = 9;

    pub const IO_RSI: usize = 10;

    pub const IO_RDI: usize = 11;

    pub const IO_RIP: usize = 12;

    pub const GUEST_LINEAR_ADDR: usize = 13;
}

#[derive(Drop)]
pub struct VmcsGuestNW {}

impl VmcsGuestNW {
    pub const CR0: usize = 14;

    pub const CR3: usize = 15;

    pub const CR4: usize = 16;

    pub const ES_BASE: usize = 17;

    pub const CS_BASE: usize = 18;

    pub const SS_BASE: usize = 19;

    pub const DS_BASE: usize = 20;

    pub const FS_BASE: usize = 21;

    pub const GS_BASE: usize = 22;

    pub const LDTR_BASE: usize = 23;

    pub const TR_BASE: usize = 24;

    pub const GDTR_BASE: usize = 25;

    pub const IDTR_BASE: usize = 26;

    pub const DR7: usize = 27;

    pub const RSP: usize = 28;

    pub const RIP: usize = 29;

    pub const RFLAGS: usize = 30;

    pub const PENDING_DBG_EXCEPTIONS: usize = 31;

    pub const IA32_SYSENTER_ESP: usize = 32;

    pub const IA32_SYSENTER_EIP: usize = 33;
}

#[derive(Drop)]
pub struct VmcsHostNW {}

impl VmcsHostNW {
    pub const CR0: usize = 34;

    pub const CR3: usize = 35;

    pub const CR4: usize = 36;

    pub const FS_BASE: usize = 37;

    pub const GS_BASE: usize = 38;

    pub const TR_BASE: usize = 39;

    pub const GDTR_BASE: usize = 40;

    pub const IDTR_BASE: usize = 41;

    pub const IA32_SYSENTER_ESP: usize = 42;

    pub const IA32_SYSENTER_EIP: usize = 43;

    pub const RSP: usize = 44;

    pub const RIP: usize = 45;
}
