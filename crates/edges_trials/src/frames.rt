// Trials of edits, of frames that intercept nothing. The lengths of the second frames, and of the first ones where another than 4,096, are printed with the arguments.
use crate::BEFORE;
use replay::{answered, print_line};
use std::io;
use structs::FRAME_SIZE;
use x86_vcpu::trial::{
    vcpu_try_io_intercept_of_range, vcpu_try_msr_intercept_of_range, vcpu_try_read_intercept,
    vcpu_try_write_intercept,
};

// ---- Ports.

// An edit of the intercepts of ports.
#[derive(Clone, Copy)]
struct PortEdit {
    base: u32,
    count: u32,
    intercept: u8,
}

impl PortEdit {
    fn new(base: u32, count: u32, intercept: u8) -> Self {
        PortEdit {
            base,
            count,
            intercept,
        }
    }

    // Byte 192 of A and byte 4,095 of B as shown.
    fn tried(
        self,
        a: &[u8],
        b: &[u8],
        shown_a: &mut [u8],
        shown_b: &mut [u8],
    ) -> Result<[u64; 2], u32> {
        let refusal = vcpu_try_io_intercept_of_range(
            a,
            b,
            shown_a,
            shown_b,
            self.base,
            self.count,
            self.intercept,
        );
        answered(
            refusal,
            [crate::byte_at(shown_a, 192), crate::byte_at(shown_b, 4095)],
        )
    }
}

fn port(rt: &impl Print, edit: PortEdit, shown_a: &mut [u8], shown_b: &mut [u8]) -> io::Result<()> {
    let frame = [0; FRAME_SIZE];
    let answer = edit.tried(&frame, &frame, shown_a, shown_b);
    let arguments = [
        edit.base.into(),
        edit.count.into(),
        edit.intercept.into(),
        shown_a.len() as u64,
        shown_b.len() as u64,
    ];
    print_line(rt, "try_io_intercept_of_range", &arguments, answer)
}

// Second frames of another length, in each place.
fn other_lengths(rt: &impl Print, edit: PortEdit, other: &mut [u8]) -> io::Result<()> {
    let mut shown = [BEFORE; FRAME_SIZE];
    port(rt, edit, other, &mut shown)?;
    port(rt, edit, &mut shown, other)
}

// First frames whose lengths are those of the second ones.
fn wrong_frames(
    rt: &impl Print,
    a: &[u8],
    b: &[u8],
    shown_a: &mut [u8],
    shown_b: &mut [u8],
) -> io::Result<()> {
    let lengths = [a.len() as u64, b.len() as u64];
    let answer = PortEdit::new(0, 1, 1).tried(a, b, shown_a, shown_b);
    print_line(
        rt,
        "try_io_intercept_of_range, A and B of",
        &lengths,
        answer,
    )
}

pub fn ports(rt: &impl Print) -> io::Result<()> {
    let mut shown_a = [BEFORE; FRAME_SIZE];
    let mut shown_b = [BEFORE; FRAME_SIZE];
    let mut short = [BEFORE; FRAME_SIZE - 1];
    let mut long = [BEFORE; FRAME_SIZE + 1];
    let one = PortEdit::new(0x604, 1, 1);
    let last = PortEdit::new(65535, 1, 1);
    let past_last = PortEdit::new(65535, 2, 1);
    let none = PortEdit::new(0xFFFF_FFFF, 0, 1);
    let neither_yes_nor_no = PortEdit::new(0x604, 1, 2);
    for edit in [one, last, past_last, none, neither_yes_nor_no] {
        port(rt, edit, &mut shown_a, &mut shown_b)?;
    }
    other_lengths(rt, one, &mut short)?;
    other_lengths(rt, one, &mut long)?;
    other_lengths(rt, past_last, &mut short)?;
    other_lengths(rt, none, &mut long)?;
    other_lengths(rt, neither_yes_nor_no, &mut short)?;
    let right = [0; FRAME_SIZE];
    wrong_frames(rt, &[0; FRAME_SIZE - 1], &right, &mut short, &mut shown_b)?;
    wrong_frames(rt, &right, &[0; FRAME_SIZE + 1], &mut shown_a, &mut long)
}

// ---- MSRs: bytes 1,040 and 3,088 as shown.

// An edit of the intercepts of an MSR, on a frame, shown in a second one.
#[derive(Drop)]
struct MsrTrial<'a> {
    frame: &'a [u8],
    shown: &'a mut [u8],
    msr: u32,
    intercept: u8,
}

impl MsrTrial<'_> {
    fn print<E: Fn(&[u8], &mut [u8], u32, u8) -> u32>(
        &mut self,
        rt: &impl Print,
        call: &str,
        edit: E,
    ) -> io::Result<()>
        requires { E.IsAlwaysCallable edit }
    {
        let refusal = edit(self.frame, self.shown, self.msr, self.intercept);
        let arguments = [
            self.msr.into(),
            self.intercept.into(),
            self.frame.len() as u64,
            self.shown.len() as u64,
        ];
        let bytes = [
            crate::byte_at(self.shown, 1040),
            crate::byte_at(self.shown, 3088),
        ];
        print_line(rt, call, &arguments, answered(refusal, bytes))
    }
}

fn msr(rt: &impl Print, frame: &[u8], shown: &mut [u8], msr: u32, intercept: u8) -> io::Result<()> {
    let mut trial = MsrTrial {
        frame,
        shown,
        msr,
        intercept,
    };
    trial.print(rt, "try_read_intercept", vcpu_try_read_intercept)?;
    trial.print(rt, "try_write_intercept", vcpu_try_write_intercept)?;
    trial.print(
        rt,
        "try_msr_intercept_of_range",
        vcpu_try_msr_intercept_of_range,
    )
}

pub fn msrs(rt: &impl Print) -> io::Result<()> {
    let frame = [0; FRAME_SIZE];
    let less = [0; FRAME_SIZE - 1];
    let mut shown = [BEFORE; FRAME_SIZE];
    let mut short = [BEFORE; FRAME_SIZE - 1];
    let mut long = [BEFORE; FRAME_SIZE + 1];
    msr(rt, &frame, &mut shown, 0xC000_0080, 1)?;
    msr(rt, &frame, &mut shown, 0x2000, 1)?;
    msr(rt, &frame, &mut shown, 0xC000_0080, 2)?;
    msr(rt, &frame, &mut short, 0xC000_0080, 1)?;
    msr(rt, &frame, &mut long, 0x2000, 1)?;
    msr(rt, &frame, &mut short, 0xC000_0080, 2)?;
    msr(rt, &less, &mut short, 0xC000_0080, 1)?;
    msr(rt, &less, &mut shown, 0x2000, 1)
}
