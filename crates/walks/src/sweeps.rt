// Many walks to a line.
use crate::{Access, Answer, Kind, MEMORY, Way};
use record::Record;
use std::io;

// What differs from walk to walk.
#[derive(Clone, Copy)]
enum What {
    // A bit of CR3.
    Top,
    // A bit of the address.
    Address,
    // A bit of an entry that lets everyone pass.
    Entry,
    // The bits of an entry that the rules speak of.
    Bits,
    // The length of memory, from the place of an entry on, which is not present.
    Absent,
    // That length, where the entry lets everyone pass.
    Present,
}

impl What {
    fn name(self) -> &'static str {
        match self {
            What::Top => "CR3",
            What::Address => "address",
            What::Entry => "entry",
            What::Bits => "bits",
            What::Absent | What::Present => "memory of",
        }
    }
}

fn bit_if(number: u64, bit: u64) -> u64 {
    if number % 2 == 1 {
        crate::turned(0, bit)
    } else {
        0
    }
}

// P, RW and US, of 8 bytes XD, and the bit that is reserved or ignored.
fn combination(k: Kind, number: u64) -> u64 {
    let rights = k.bits | number % 8;
    match k.levels {
        2 => rights | bit_if(number / 8, k.spare),
        _ => rights | bit_if(number / 8, 63) | bit_if(number / 16, k.spare),
    }
}

// The walks of a line: of a kind of entry, by an access.
#[derive(Clone, Copy)]
struct Sweep {
    kind: Kind,
    access: Access,
    what: What,
}

impl Sweep {
    // Where the walks begin.
    fn value(self) -> u64 {
        match self.what {
            What::Top => crate::page_of(self.kind.levels),
            What::Address => crate::address_of(self.kind.levels),
            What::Entry => self.kind.open(),
            What::Bits => combination(self.kind, 31),
            What::Absent | What::Present => self.kind.place() as u64,
        }
    }

    fn entry(self, number: u64) -> u64 {
        match self.what {
            What::Entry => crate::turned(self.kind.open(), number),
            What::Bits => combination(self.kind, number),
            What::Absent => 0,
            What::Top | What::Address | What::Present => self.kind.open(),
        }
    }

    fn length(self, number: u64) -> usize {
        let place = self.kind.place();
        match self.what {
            What::Absent | What::Present if place < MEMORY && number < 64 => {
                place + number as usize
            }
            _ => MEMORY,
        }
    }

    fn address(self, number: u64) -> u64 {
        let address = crate::address_of(self.kind.levels);
        match self.what {
            What::Address => crate::turned(address, number),
            _ => address,
        }
    }

    fn walk(
        self,
        bytes: &mut [u8; Record::LENGTH],
        memory: &mut [u8; MEMORY],
        number: u64,
    ) -> Answer {
        if matches!(self.what, What::Top) {
            crate::put_top(bytes, crate::turned(self.value(), number));
        }
        self.kind.put(memory, self.entry(number));
        let address = self.address(number);
        crate::walk_part(bytes, memory, self.length(number), address, self.access.way)
    }

    fn mark(self, answer: Answer, home: Option<u64>, number: u64) -> u8 {
        let level = self.kind.level;
        match self.what {
            What::Top | What::Address => crate::level_mark(answer, home, number),
            What::Entry => crate::mark(answer, level, home, Some(number)),
            What::Bits | What::Absent | What::Present => crate::mark(answer, level, home, None),
        }
    }

    fn print(self, rt: &impl Print, count: u64) -> io::Result<()> {
        let Sweep { kind, access, what } = self;
        let name = what.name();
        print!(rt; "{kind}{access}, {name} {:x}", self.value())?;
        let home = home_of(kind);
        if let Some(home) = home {
            print!(rt; ", to {home:x}")?;
        }
        print!(rt; ":")?;
        let mut bytes = kind.record(access);
        let mut memory = [0; MEMORY];
        kind.put_tables(&mut memory);
        for number in 0..count {
            let answer = self.walk(&mut bytes, &mut memory, number);
            crate::print_mark(rt, self.mark(answer, home, number), number)?;
        }
        println!(rt; "")
    }
}

// The address that an entry leads to which lets everyone pass.
fn home_of(k: Kind) -> Option<u64> {
    let access = k.by(Way::Read, 0);
    let mut memory = [0; MEMORY];
    k.put_tables(&mut memory);
    k.put(&mut memory, k.open());
    match crate::walk(
        &k.record(access),
        &memory,
        crate::address_of(k.levels),
        access.way,
    ) {
        Answer::Address(home) => Some(home),
        _ => None,
    }
}

fn print_sweep(
    rt: &impl Print,
    kind: Kind,
    way: Way,
    flags: u64,
    what: What,
    count: u64,
) -> io::Result<()> {
    let sweep = Sweep {
        kind,
        access: kind.by(way, flags),
        what,
    };
    sweep.print(rt, count)
}

// Entries have half the bits with 2 levels.
fn half(k: Kind, count: u64) -> u64 {
    if k.levels == 2 { count / 2 } else { count }
}

fn places(rt: &impl Print, k: Kind) -> io::Result<()> {
    let count = half(k, 8) | 2;
    print_sweep(rt, k, Way::Read, 0, What::Absent, count)?;
    if k.is_page() {
        print_sweep(rt, k, Way::Read, 0, What::Present, count)?;
        print_sweep(rt, k, Way::Read, 0, What::Address, 64)?;
    }
    if k.level == 1 {
        print_sweep(rt, k, Way::Read, 0, What::Top, 64)?;
    }
    Ok(())
}

// Without NXE and with it. With 2 levels NXE does not count, and PSE does.
fn entries(rt: &impl Print, k: Kind) -> io::Result<()> {
    let count = half(k, 64);
    print_sweep(rt, k, Way::Read, 0, What::Entry, count)?;
    if k.levels == 2 {
        print_sweep(rt, k.without(), Way::Read, Access::NXE, What::Entry, count)
    } else {
        let flags = Access::NXE | Access::USER;
        print_sweep(rt, k, Way::Fetch, flags, What::Entry, count)
    }
}

fn combine(rt: &impl Print, k: Kind, way: Way, flags: u64, count: u64) -> io::Result<()> {
    print_sweep(rt, k, way, flags | Access::NXE, What::Bits, count)
}

// Each kind of access, with flags that bear on it and flags that do not.
fn combinations(rt: &impl Print, k: Kind) -> io::Result<()> {
    for (way, flags, count) in [
        (Way::Write, Access::SMAP, 8),
        (Way::Write, Access::SMAP | Access::WP, 8),
        (Way::Fetch, Access::SMEP, half(k, 16)),
        (Way::Fetch, Access::SMAP | Access::WP, half(k, 16)),
        (Way::Write, Access::USER | Access::SMAP, 8),
        (Way::Fetch, Access::USER | Access::SMEP, half(k, 32)),
    ] {
        combine(rt, k, way, flags, count)?;
    }
    Ok(())
}

pub fn sweeps(rt: &impl Print, k: Kind) -> io::Result<()> {
    places(rt, k)?;
    entries(rt, k)?;
    combinations(rt, k)?;
    if k.is_page() {
        return Ok(());
    }
    combine(rt, k.leading(0x10_0000), Way::Write, Access::USER, 8)?;
    combine(rt, k.leading(0x5000), Way::Fetch, Access::USER, half(k, 32))
}
