// Registers, fields, control words and linear addresses.
use host_calls::HeldSession;
use replay::{answered, print_line};
use std::io;
use vcpu_session::Phase;
use x86_vcpu::readings::vcpu_gla2gva;

const CS_ACCESS_RIGHTS: u64 = 0x4816;

const CS_BASE: u64 = 0x6808;

// A value that is written is read back.
pub fn registers(rt: &impl Print) -> io::Result<()> {
    for index in [0, 3, 4, 5, 15, 16, 256, 0x1_0000_0000] {
        let mut session = HeldSession::in_phase(Phase::FRESH);
        let before = session.read_register(index);
        print_line(
            rt,
            "get_reg_of_index",
            &[index],
            before.map(|value| [value]),
        )?;
        let value = u64::MAX;
        let written = session.write_register(index, value);
        let after = written.and_then(|()| session.read_register(index));
        print_line(
            rt,
            "set_reg_of_index",
            &[index, value],
            after.map(|value| [value]),
        )?;
    }
    Ok(())
}

// A value that is written is read back.
pub fn fields(rt: &impl Print) -> io::Result<()> {
    for encoding in [0, 0x7FE, 0x800, 0x801, 0x6C16, 0x6C18, 0x1_0000_0800] {
        let session = HeldSession::in_phase(Phase::FRESH);
        let field = session.read_field(encoding);
        print_line(rt, "read_field", &[encoding], field.map(|value| [value]))?;
    }
    for (encoding, value) in [
        (0x6C18, 0),
        (0x2400, 0),
        (0x4402, 0xFFFF_FFFF_FFFF_FFFF),
        (0x6400, 0),
        (0x800, 0xFFFF),
        (0x800, 0x1_0000),
        (0x4016, 0xFFFF_FFFF),
        (0x4016, 0x1_0000_0000),
        (0x2000, 0xFFFF_FFFF_FFFF_FFFF),
        (0x6800, 0xFFFF_FFFF_FFFF_FFFF),
    ] {
        let mut session = HeldSession::in_phase(Phase::FRESH);
        let written = session.write_field(encoding, value);
        let after = written.and_then(|()| session.read_field(encoding));
        print_line(
            rt,
            "write_field",
            &[encoding, value],
            after.map(|value| [value]),
        )?;
    }
    Ok(())
}

pub fn controls(rt: &impl Print) -> io::Result<()> {
    let allowed1: u32 = 0x7F;
    for (allowed0, old, set, clear) in [
        (0x16, 0x16, 9, 0),
        (0x7F, 0, 0, 0),
        (0x80, 0, 1, 1),
        (0x16, 0x16, 1, 8),
        (0x16, 0x16, 1, 1),
        (0x16, 0x16, 0x80, 0x80),
        (0x16, 0x16, 0x40, 0),
        (0x16, 0x16, 0x80, 0),
        (0x16, 0x16, 0x80, 2),
        (0x16, 0x7F, 0, 0x69),
        (0x16, 0x16, 0, 2),
    ] {
        let mut word: u32 = 0;
        let refusal = x86_vcpu::vcpu_set_control(allowed0, allowed1, old, set, clear, &mut word);
        let arguments = [allowed0, allowed1, old, set, clear].map(u64::from);
        print_line(
            rt,
            "set_control",
            &arguments,
            answered(refusal, [word.into()]),
        )?;
    }
    Ok(())
}

// With LMA and CS.L the mode is 64-bit, and no base is added.
pub fn addresses(rt: &impl Print) -> io::Result<()> {
    let base = 1;
    for (efer, rights, linear) in [
        (0, 0, 0xFFFF_FFFF_FFFF_FFFE),
        (0, 0, 0xFFFF_FFFF_FFFF_FFFF),
        (0x400, 0, 0xFFFF_FFFF_FFFF_FFFF),
        (0x400, 0x2000, 0xFFFF_FFFF_FFFF_FFFF),
    ] {
        let mut session = HeldSession::in_phase(Phase::FRESH);
        let _ = session.write_field(CS_ACCESS_RIGHTS, rights);
        let _ = session.write_field(CS_BASE, base);
        let mut address: u64 = 0;
        let refusal = vcpu_gla2gva(&session.bytes, efer, linear, &mut address);
        print_line(
            rt,
            "gla2gva",
            &[efer, rights, base, linear],
            answered(refusal, [address]),
        )?;
    }
    Ok(())
}
