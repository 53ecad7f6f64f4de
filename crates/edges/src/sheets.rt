// The trap sheet.
use host_calls::Frames;
use replay::{answered, print_line};
use std::io;
use structs::FRAME_SIZE;
use x86_vcpu::{vcpu_set_io_intercept_of_range, vcpu_set_read_intercept, vcpu_trap_sheet};

// The length of the sheet.
fn sheet_length(a: &[u8], b: &[u8], msr: &[u8], output: &mut [u8]) -> Result<[u64; 1], u32> {
    let mut length: u64 = 0;
    let refusal = vcpu_trap_sheet(a, b, msr, output, &mut length);
    answered(refusal, [length])
}

// The lengths of the buffers, and that of the sheet.
fn sheet(rt: &impl Print, a: &[u8], b: &[u8], msr: &[u8], output: &mut [u8]) -> io::Result<()> {
    let lengths = [a.len(), b.len(), msr.len(), output.len()].map(|length| length as u64);
    print_line(rt, "trap_sheet", &lengths, sheet_length(a, b, msr, output))
}

// A frame of a wrong length, in each place.
fn wrong(rt: &impl Print, frame: &[u8], output: &mut [u8]) -> io::Result<()> {
    let right = [0; FRAME_SIZE];
    sheet(rt, frame, &right, &right, output)?;
    sheet(rt, &right, frame, &right, output)?;
    sheet(rt, &right, &right, frame, output)
}

fn lengths(rt: &impl Print) -> io::Result<()> {
    let frame = [0; FRAME_SIZE];
    let mut short = [0; 122];
    let mut exact = [0; 123];
    sheet(rt, &frame, &frame, &frame, &mut [])?;
    sheet(rt, &frame, &frame, &frame, &mut short)?;
    sheet(rt, &frame, &frame, &frame, &mut exact)?;
    sheet(rt, &frame, &frame, &frame, &mut [0; 124])?;
    wrong(rt, &[0; FRAME_SIZE - 1], &mut short)?;
    wrong(rt, &[0; FRAME_SIZE - 1], &mut exact)?;
    wrong(rt, &[0; FRAME_SIZE + 1], &mut short)?;
    wrong(rt, &[0; FRAME_SIZE + 1], &mut exact)
}

// The sheet of count trapped ports.
fn ports(rt: &impl Print, port: u32, count: u32, output: &mut [u8]) -> io::Result<()> {
    let Frames { mut a, mut b, msr } = Frames::new();
    vcpu_set_io_intercept_of_range(&mut a, &mut b, port, count, 1);
    let arguments = [port.into(), count.into(), output.len() as u64];
    print_line(
        rt,
        "trap_sheet, ports",
        &arguments,
        sheet_length(&a, &b, &msr, output),
    )
}

// The sheet of two MSRs whose reads are trapped.
fn reads(rt: &impl Print, one: u32, other: u32, output: &mut [u8]) -> io::Result<()> {
    let Frames { a, b, mut msr } = Frames::new();
    vcpu_set_read_intercept(&mut msr, one, 1);
    vcpu_set_read_intercept(&mut msr, other, 1);
    let arguments = [one.into(), other.into(), output.len() as u64];
    print_line(
        rt,
        "trap_sheet, reads",
        &arguments,
        sheet_length(&a, &b, &msr, output),
    )
}

pub fn sheets(rt: &impl Print) -> io::Result<()> {
    lengths(rt)?;
    let mut short = [0; 163];
    let mut exact = [0; 164];
    for (port, count) in [(0x604, 1), (0x7FFF, 2), (0, 65536)] {
        ports(rt, port, count, &mut short)?;
        ports(rt, port, count, &mut exact)?;
    }
    reads(rt, 0x1FFE, 0x1FFF, &mut short)?;
    reads(rt, 0x1FFE, 0x1FFF, &mut exact)?;
    reads(rt, 0x1FFF, 0xC000_0000, &mut [0; 204])?;
    reads(rt, 0x1FFF, 0xC000_0000, &mut [0; 205])
}
