// Readings of the guest, on a record with the fields of a case: its mode, its page tables, a linear address.
use record::Record;
use replay::{answered, print_answer};
use std::io;

const IA32_EFER: u64 = 0x2806;

const CS_ACCESS_RIGHTS: u64 = 0x4816;

const SS_ACCESS_RIGHTS: u64 = 0x4818;

const CR0: u64 = 0x6800;

const CR3: u64 = 0x6802;

const CR4: u64 = 0x6804;

const CS_BASE: u64 = 0x6808;

// The record of a new session with these fields.
fn record_with(fields: &[(u64, u64)]) -> [u8; Record::LENGTH] {
    let mut bytes = [0u8; Record::LENGTH];
    for (encoding, value) in fields {
        x86_vcpu::session::vcpu_write_field(&mut bytes, *encoding, *value);
    }
    bytes
}

pub fn get_cpu_mode(rt: &impl Print, numbers: [u64; 8]) -> io::Result<()> {
    let [host_efer, rights, cr0, ..] = numbers;
    let bytes = record_with(&[(CS_ACCESS_RIGHTS, rights), (CR0, cr0)]);
    let mut mode: u32 = 0;
    let refusal = x86_vcpu::readings::vcpu_get_cpu_mode(&bytes, host_efer, &mut mode);
    print_answer(rt, answered(refusal, [mode.into()]))
}

// The yes/no values are bits 0 to 7 of the flags.
pub fn get_ptw_info(rt: &impl Print, numbers: [u64; 8]) -> io::Result<()> {
    let [cr0, cr3, cr4, efer, rights, ..] = numbers;
    let bytes = record_with(&[
        (CR0, cr0),
        (CR3, cr3),
        (CR4, cr4),
        (IA32_EFER, efer),
        (SS_ACCESS_RIGHTS, rights),
    ]);
    let mut top_entry: u64 = 0;
    let mut level: u8 = 0;
    let mut width: u8 = 0;
    let mut flags: u32 = 0;
    let refusal = x86_vcpu::readings::vcpu_get_ptw_info(
        &bytes,
        &mut top_entry,
        &mut level,
        &mut width,
        &mut flags,
    );
    let mut answer = [0; 11];
    answer[0] = top_entry;
    answer[1] = u64::from(level);
    answer[2] = u64::from(width);
    for (i, flag) in answer[3..].iter_mut().enumerate() {
        *flag = u64::from(flags >> i & 1);
    }
    print_answer(rt, answered(refusal, answer))
}

// Whether the mode is real or protected makes no difference, so CR0 is 0.
pub fn gla2gva(rt: &impl Print, numbers: [u64; 8]) -> io::Result<()> {
    let [host_efer, rights, base, address, ..] = numbers;
    let bytes = record_with(&[(CS_ACCESS_RIGHTS, rights), (CS_BASE, base)]);
    let mut linear: u64 = 0;
    let refusal = x86_vcpu::readings::vcpu_gla2gva(&bytes, host_efer, address, &mut linear);
    print_answer(rt, answered(refusal, [linear]))
}
