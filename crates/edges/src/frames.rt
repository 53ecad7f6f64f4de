// Edits of the intercept frames.
use host_calls::Frames;
use replay::{answered, print_line};
use std::io;
use x86_vcpu::{
    vcpu_set_io_intercept_of_range, vcpu_set_msr_intercept_of_range, vcpu_set_read_intercept,
    vcpu_set_write_intercept,
};

// Byte 192 of A has port 0x604 in bit 4, byte 4,095 of B has port 65,535 in bit 7.
pub fn ports(rt: &impl Print) -> io::Result<()> {
    for (base, count, intercept) in [
        (0x604, 1, 1),
        (0x604, 1, 2),
        (65535, 1, 1),
        (65535, 2, 1),
        (65536, 0, 1),
        (65536, 1, 1),
        (0, 65536, 1),
        (0, 65537, 1),
        (0xFFFF_FFFF, 0, 1),
        (1, 0xFFFF_FFFF, 1),
    ] {
        let Frames { mut a, mut b, .. } = Frames::new();
        let refusal = vcpu_set_io_intercept_of_range(&mut a, &mut b, base, count, intercept);
        print_line(
            rt,
            "set_io_intercept_of_range",
            &[base.into(), count.into(), intercept.into()],
            answered(refusal, [a[192].into(), b[4095].into()]),
        )?;
    }
    Ok(())
}

// Makes edits of one port each, in turn, and answers byte 192 of A.
fn edited(edits: [(u32, u8); 2]) -> Result<u64, u32> {
    let Frames { mut a, mut b, .. } = Frames::new();
    // Port 0x605 is intercepted before.
    a[192] = 0x20;
    for (port, intercept) in edits {
        answered(
            vcpu_set_io_intercept_of_range(&mut a, &mut b, port, 1, intercept),
            (),
        )?;
    }
    Ok(a[192].into())
}

// One edit sets the intercept of a port and another clears that of a port: what they leave in both orders.
pub fn orders(rt: &impl Print) -> io::Result<()> {
    for (set, clear) in [(0x604, 0x604), (0x604, 0x605)] {
        let set_first = edited([(set, 1), (clear, 0)]);
        let clear_first = edited([(clear, 0), (set, 1)]);
        print_line(
            rt,
            "set_io_intercept_of_range, both orders",
            &[set.into(), clear.into()],
            set_first.and_then(|one| clear_first.map(|other| [one, other])),
        )?;
    }
    Ok(())
}

// Byte 1,040 has the read of MSR 0xC0000080 in bit 0, byte 3,088 its write.
fn print_edit<E: Fn(&mut [u8], u32, u8) -> u32>(
    rt: &impl Print,
    call: &str,
    msr: u32,
    intercept: u8,
    edit: E,
) -> io::Result<()>
    requires { E.IsAlwaysCallable edit }
{
    let mut frame = Frames::new().msr;
    let refusal = edit(&mut frame, msr, intercept);
    print_line(
        rt,
        call,
        &[msr.into(), intercept.into()],
        answered(refusal, [frame[1040].into(), frame[3088].into()]),
    )
}

fn print_edits(rt: &impl Print, msr: u32, intercept: u8) -> io::Result<()> {
    print_edit(
        rt,
        "set_read_intercept",
        msr,
        intercept,
        vcpu_set_read_intercept,
    )?;
    print_edit(
        rt,
        "set_write_intercept",
        msr,
        intercept,
        vcpu_set_write_intercept,
    )?;
    print_edit(
        rt,
        "set_msr_intercept_of_range",
        msr,
        intercept,
        vcpu_set_msr_intercept_of_range,
    )
}

pub fn msrs(rt: &impl Print) -> io::Result<()> {
    for msr in [
        0,
        0x1FFF,
        0x2000,
        0xBFFF_FFFF,
        0xC000_0000,
        0xC000_0080,
        0xC000_1FFF,
        0xC000_2000,
    ] {
        print_edits(rt, msr, 1)?;
    }
    print_edits(rt, 0xC000_0080, 2)
}
