// The bits of control registers, of RFLAGS, of IA32_VMX_BASIC, of control words and of access rights that the port names, as in the Rust and the
// manual: each name is the place of its bit, as in the definitions (specs/Flags). `word >> PLACE` has that bit lowest, and `1 << PLACE` is the word with
// that bit alone.
#[derive(Drop)]
pub struct Cr0Flags {}

impl Cr0Flags {
    pub const PROTECTED_MODE_ENABLE: u64 = 0;

    pub const EXTENSION_TYPE: u64 = 4;

    pub const WRITE_PROTECT: u64 = 16;

    pub const NOT_WRITE_THROUGH: u64 = 29;

    pub const CACHE_DISABLE: u64 = 30;

    pub const PAGING: u64 = 31;
}

#[derive(Drop)]
pub struct Cr4Flags {}

impl Cr4Flags {
    pub const PAGE_SIZE_EXTENSION: u64 = 4;

    pub const PHYSICAL_ADDRESS_EXTENSION: u64 = 5;

    pub const VIRTUAL_MACHINE_EXTENSIONS: u64 = 13;

    pub const SUPERVISOR_MODE_EXECUTION_PROTECTION: u64 = 20;

    pub const SUPERVISOR_MODE_ACCESS_PREVENTION: u64 = 21;
}

#[derive(Drop)]
pub struct EferFlags {}

impl EferFlags {
    pub const SYSTEM_CALL_EXTENSIONS: u64 = 0;

    pub const LONG_MODE_ENABLE: u64 = 8;

    pub const LONG_MODE_ACTIVE: u64 = 10;

    pub const NO_EXECUTE_ENABLE: u64 = 11;

    pub const SECURE_VIRTUAL_MACHINE_ENABLE: u64 = 12;

    pub const LONG_MODE_SEGMENT_LIMIT_ENABLE: u64 = 13;

    pub const FAST_FXSAVE_FXRSTOR: u64 = 14;

    pub const TRANSLATION_CACHE_EXTENSION: u64 = 15;
}

#[derive(Drop)]
pub struct XCr0Flags {}

impl XCr0Flags {
    pub const X87: u64 = 0;

    pub const SSE: u64 = 1;

    pub const AVX: u64 = 2;

    // MPX: the bound registers, and BNDCFGU and BNDSTATUS.
    pub const BNDREG: u64 = 3;

    pub const BNDCSR: u64 = 4;

    // AVX-512: k0 to k7, the upper halves of ZMM0 to ZMM15, and ZMM16 to ZMM31.
    pub const OPMASK: u64 = 5;

    pub const ZMM_HI256: u64 = 6;

    pub const HI16_ZMM: u64 = 7;

    // AMX: the configuration of the tiles, and the tiles.
    pub const TILECFG: u64 = 17;

    pub const TILEDATA: u64 = 18;
}

#[derive(Drop)]
pub struct RFlags {}

impl RFlags {
    pub const INTERRUPT_FLAG: u64 = 9;
}

#[derive(Drop)]
pub struct VmxBasic {}

impl VmxBasic {
    // Controls that default to 1 may be cleared to 0: the TRUE capability words are there.
    pub const VMX_FLEX_CONTROLS: u64 = 55;
}

#[derive(Drop)]
pub struct PinbasedControls {}

impl PinbasedControls {
    pub const EXTERNAL_INTERRUPT_EXITING: u32 = 0;

    pub const NMI_EXITING: u32 = 3;
}

#[derive(Drop)]
pub struct PrimaryControls {}

impl PrimaryControls {
    pub const INTERRUPT_WINDOW_EXITING: u32 = 2;

    pub const CR3_LOAD_EXITING: u32 = 15;

    pub const CR3_STORE_EXITING: u32 = 16;

    pub const CR8_LOAD_EXITING: u32 = 19;

    pub const CR8_STORE_EXITING: u32 = 20;

    pub const USE_IO_BITMAPS: u32 = 25;

    pub const USE_MSR_BITMAPS: u32 = 28;

    pub const SECONDARY_CONTROLS: u32 = 31;
}

#[derive(Drop)]
pub struct SecondaryControls {}

impl SecondaryControls {
    pub const ENABLE_EPT: u32 = 1;

    pub const ENABLE_RDTSCP: u32 = 3;

    pub const UNRESTRICTED_GUEST: u32 = 7;

    pub const ENABLE_INVPCID: u32 = 12;

    pub const ENABLE_XSAVES_XRSTORS: u32 = 20;
}

#[derive(Drop)]
pub struct ExitControls {}

impl ExitControls {
    pub const HOST_ADDRESS_SPACE_SIZE: u32 = 9;

    pub const ACK_INTERRUPT_ON_EXIT: u32 = 15;

    pub const SAVE_IA32_PAT: u32 = 18;

    pub const LOAD_IA32_PAT: u32 = 19;

    pub const SAVE_IA32_EFER: u32 = 20;

    pub const LOAD_IA32_EFER: u32 = 21;
}

#[derive(Drop)]
pub struct EntryControls {}

impl EntryControls {
    pub const IA32E_MODE_GUEST: u32 = 9;

    pub const LOAD_IA32_PAT: u32 = 14;

    pub const LOAD_IA32_EFER: u32 = 15;
}

// The access rights of a segment (SDM 3C, 25.4.1).
#[derive(Drop)]
pub struct AccessRights {}

impl AccessRights {
    // The lower of the two bits of the descriptor privilege level.
    pub const DPL: u32 = 5;

    // CS alone: 64-bit mode (L).
    pub const LONG_MODE: u32 = 13;
}
