// Which encodings name a field, and which of three values it takes.
use record::Record;
use std::io;

// An access to a field.
#[derive(Clone, Copy)]
enum Access {
    Read,
    Write(u64),
}

impl Access {
    fn refusal(self, bytes: &mut [u8; Record::LENGTH], encoding: u64) -> u32 {
        let mut value: u64 = 0;
        match self {
            Access::Read => x86_vcpu::readings::vcpu_read_field(bytes, encoding, &mut value),
            Access::Write(v) => x86_vcpu::session::vcpu_write_field(bytes, encoding, v),
        }
    }

    // Bit i says whether the access to the field of the encoding first + i is accepted.
    fn mask(self, bytes: &mut [u8; Record::LENGTH], first: u32, count: u32) -> u64 {
        let mut accepted: u64 = 0;
        for i in (0..count).rev() {
            let refusal = self.refusal(bytes, u64::from(first) + u64::from(i));
            accepted = accepted << 1 | u64::from(refusal == 0);
        }
        accepted
    }
}

pub fn encodings(rt: &impl Print, numbers: [u64; 8]) -> io::Result<()> {
    let [first, count, ..] = numbers;
    let first = bits::low(first);
    let count = bits::low(count);
    let mut bytes = [0u8; Record::LENGTH];
    let read = Access::Read.mask(&mut bytes, first, count);
    let zero = Access::Write(0).mask(&mut bytes, first, count);
    let short = Access::Write(0x1_0000).mask(&mut bytes, first, count);
    let long = Access::Write(0x1_0000_0000).mask(&mut bytes, first, count);
    replay::print_numbers(rt, &[read, zero, short, long])
}
