// An event goes in, by an entry with it at the front of the queue, and three fields are printed. PE of CR0 is set: else no error code goes in, as it does in the
// original. The list leaves out vectors 1 and 21, whose types are document 02's.
use record::Record;
use record::words::Stored;
use replay::{answered, print_answer};
use std::io;
use vcpu_session::Phase;
use vmcs::names::VmcsReadOnly32;

const VMENTRY_INTERRUPTION_INFO_FIELD: u64 = 0x4016;

const VMENTRY_EXCEPTION_ERR_CODE: u64 = 0x4018;

const VMENTRY_INSTRUCTION_LEN: u64 = 0x401A;

const CR0: u64 = 0x6800;

const PROTECTED_MODE_ENABLE: u64 = 1;

const RFLAGS: u64 = 0x6820;

const INTERRUPT_ENABLE: u64 = 0x200;

// The record of a session that is ready to enter, with PE set, interrupts on and the fields of a case. The phase and the read-only fields are put into the bytes.
fn ready(numbers: [u64; 8]) -> [u8; Record::LENGTH] {
    let [
        _,
        _,
        _,
        exit_code,
        exit_length,
        entry_info,
        entry_code,
        entry_length,
    ] = numbers;
    let mut bytes = crate::new_record();
    u8::put(&mut bytes, Record::PHASE, Phase::READY);
    u32::put(
        &mut bytes,
        Record::W32 + 4 * VmcsReadOnly32::VMEXIT_INTERRUPTION_ERR_CODE,
        bits::low(exit_code),
    );
    u32::put(
        &mut bytes,
        Record::W32 + 4 * VmcsReadOnly32::VMEXIT_INSTRUCTION_LEN,
        bits::low(exit_length),
    );
    for (encoding, value) in [
        (CR0, PROTECTED_MODE_ENABLE),
        (RFLAGS, INTERRUPT_ENABLE),
        (VMENTRY_INTERRUPTION_INFO_FIELD, entry_info),
        (VMENTRY_EXCEPTION_ERR_CODE, entry_code),
        (VMENTRY_INSTRUCTION_LEN, entry_length),
    ] {
        x86_vcpu::session::vcpu_write_field(&mut bytes, encoding, value);
    }
    bytes
}

// Queues the event of a case and enters, or answers the first refusal.
fn enter(bytes: &mut [u8; Record::LENGTH], numbers: [u64; 8]) -> Result<(), u32> {
    let [vector, is_code_given, code, ..] = numbers;
    let queued = x86_vcpu::session::vcpu_queue_event(
        bytes,
        replay::low_byte(vector),
        replay::low_byte(is_code_given),
        bits::low(code),
    );
    answered(queued, ())?;
    let mut resumed: u8 = 0;
    let mut injection: u8 = 0;
    let entered = x86_vcpu::session::vcpu_entry(bytes, 0, &mut resumed, &mut injection);
    answered(entered, ())
}

pub fn inject_event(rt: &impl Print, numbers: [u64; 8]) -> io::Result<()> {
    let mut bytes = ready(numbers);
    let entered = enter(&mut bytes, numbers);
    let word = crate::read(&bytes, VMENTRY_INTERRUPTION_INFO_FIELD);
    let code = crate::read(&bytes, VMENTRY_EXCEPTION_ERR_CODE);
    let length = crate::read(&bytes, VMENTRY_INSTRUCTION_LEN);
    print_answer(rt, entered.map(|()| [word, code, length]))
}
