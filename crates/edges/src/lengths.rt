// Lent lengths: a byte less and a byte more than the right one.
use host_calls::Frames;
use record::Record;
use replay::{answered, print_line};
use std::io;
use structs::FRAME_SIZE;
use x86_vcpu::session::vcpu_new;
use x86_vcpu::{vcpu_set_io_intercept_of_range, vcpu_set_write_intercept};

fn print_length(rt: &impl Print, call: &str, length: usize, refusal: u32) -> io::Result<()> {
    print_line(rt, call, &[length as u64], answered(refusal, []))
}

fn new(rt: &impl Print, bytes: &mut [u8]) -> io::Result<()> {
    let Frames {
        mut a,
        mut b,
        mut msr,
    } = Frames::new();
    let refusal = vcpu_new(bytes, &mut a, &mut b, &mut msr);
    print_length(rt, "new, record of", bytes.len(), refusal)
}

// A frame of a wrong length, in each place.
fn wrong_new(rt: &impl Print, frame: &mut [u8]) -> io::Result<()> {
    let mut bytes = [0; Record::LENGTH];
    let Frames {
        mut a,
        mut b,
        mut msr,
    } = Frames::new();
    let refusal = vcpu_new(&mut bytes, frame, &mut b, &mut msr);
    print_length(rt, "new, A of", frame.len(), refusal)?;
    let refusal = vcpu_new(&mut bytes, &mut a, frame, &mut msr);
    print_length(rt, "new, B of", frame.len(), refusal)?;
    let refusal = vcpu_new(&mut bytes, &mut a, &mut b, frame);
    print_length(rt, "new, MSR of", frame.len(), refusal)
}

fn wrong_edits(rt: &impl Print, frame: &mut [u8]) -> io::Result<()> {
    let Frames { mut a, mut b, .. } = Frames::new();
    let refusal = vcpu_set_io_intercept_of_range(frame, &mut b, 0, 1, 1);
    print_length(rt, "set_io_intercept_of_range, A of", frame.len(), refusal)?;
    let refusal = vcpu_set_io_intercept_of_range(&mut a, frame, 0, 1, 1);
    print_length(rt, "set_io_intercept_of_range, B of", frame.len(), refusal)?;
    let refusal = vcpu_set_write_intercept(frame, 0, 1);
    print_length(rt, "set_write_intercept, MSR of", frame.len(), refusal)
}

pub fn lengths(rt: &impl Print) -> io::Result<()> {
    new(rt, &mut [0; Record::LENGTH - 1])?;
    new(rt, &mut [0; Record::LENGTH])?;
    new(rt, &mut [0; Record::LENGTH + 1])?;
    let mut short = [0; FRAME_SIZE - 1];
    wrong_new(rt, &mut short)?;
    wrong_edits(rt, &mut short)?;
    let mut long = [0; FRAME_SIZE + 1];
    wrong_new(rt, &mut long)?;
    wrong_edits(rt, &mut long)
}
