// Setup: each case changes numbers of setup's arguments and sets up a new session. The five control words, a digest of the record and the sum of the frames'
// digests are printed.
use blocks::setup::Layout;
use replay::{answered, print_answer};
use std::io;
use structs::FRAME_SIZE;

const PINBASED_EXEC_CONTROLS: u64 = 0x4000;

const PRIMARY_PROCBASED_EXEC_CONTROLS: u64 = 0x4002;

const VMEXIT_CONTROLS: u64 = 0x400C;

const VMENTRY_CONTROLS: u64 = 0x4012;

const SECONDARY_PROCBASED_EXEC_CONTROLS: u64 = 0x401E;

// Where the numbers of the block start, and where it ends. They stand at places 1 to 42 of the arguments.
const OFFSETS: [usize; 43] = [
    Layout::HOST_PAT,
    Layout::HOST_EFER,
    Layout::HOST_CR0,
    Layout::HOST_CR3,
    Layout::HOST_CR4,
    Layout::HOST_ES,
    Layout::HOST_CS,
    Layout::HOST_SS,
    Layout::HOST_DS,
    Layout::HOST_FS,
    Layout::HOST_GS,
    Layout::HOST_FS_BASE,
    Layout::HOST_GS_BASE,
    Layout::HOST_TR,
    Layout::HOST_TR_BASE,
    Layout::HOST_GDTR_BASE,
    Layout::HOST_IDTR_BASE,
    Layout::HOST_RIP,
    Layout::ENTRY,
    Layout::GUEST_PAT,
    Layout::EPT_ROOT,
    Layout::IO_BITMAP_A,
    Layout::IO_BITMAP_B,
    Layout::MSR_BITMAPS,
    Layout::VMX_BASIC,
    Layout::PINBASED_CTLS,
    Layout::PROCBASED_CTLS,
    Layout::EXIT_CTLS,
    Layout::ENTRY_CTLS,
    Layout::CR0_FIXED0,
    Layout::CR0_FIXED1,
    Layout::CR4_FIXED0,
    Layout::CR4_FIXED1,
    Layout::PROCBASED_CTLS2,
    Layout::TRUE_PINBASED_CTLS,
    Layout::TRUE_PROCBASED_CTLS,
    Layout::TRUE_EXIT_CTLS,
    Layout::TRUE_ENTRY_CTLS,
    Layout::XCR0_SUPPORTED,
    Layout::RDTSCP,
    Layout::INVPCID,
    Layout::XSAVES,
    Layout::LENGTH,
];

fn sum_of_digests(a: &[u8; FRAME_SIZE], b: &[u8; FRAME_SIZE], msr: &[u8; FRAME_SIZE]) -> u64 {
    replay::digest_of(a) + replay::digest_of(b) + replay::digest_of(msr)
}

// Sets a new session up, with the frames full of the byte at place 43, and prints the answer.
pub fn answer(rt: &impl Print, arguments: &[u64; 44]) -> io::Result<()> {
    let fill = replay::low_byte(arguments[43]);
    let mut bytes = crate::new_record();
    let mut a = [fill; FRAME_SIZE];
    let mut b = [fill; FRAME_SIZE];
    let mut msr = [fill; FRAME_SIZE];
    let mut block = [0u8; Layout::LENGTH];
    crate::put_all(&mut block, &OFFSETS, arguments);
    let refusal = x86_vcpu::setup::vcpu_setup(&mut bytes, &block, &mut a, &mut b, &mut msr);
    let results = [
        crate::read(&bytes, PINBASED_EXEC_CONTROLS),
        crate::read(&bytes, PRIMARY_PROCBASED_EXEC_CONTROLS),
        crate::read(&bytes, SECONDARY_PROCBASED_EXEC_CONTROLS),
        crate::read(&bytes, VMEXIT_CONTROLS),
        crate::read(&bytes, VMENTRY_CONTROLS),
        replay::digest_of(&bytes),
        sum_of_digests(&a, &b, &msr),
    ];
    print_answer(rt, answered(refusal, results))
}
