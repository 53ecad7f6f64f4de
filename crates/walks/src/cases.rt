// Walks with all that they depend on. Of each entry its place is printed, and then what is stored there.
use crate::{Access, MEMORY, Way};
use record::Record;
use std::io;

const ALL: u64 = 0xFFFF_FFFF_FFFF_FFFF;

// An open entry of the last page of all.
const FAR: u64 = 0xF_FFFF_FFFF_F007;

// A walk in a memory that ends at a length.
#[derive(Clone, Copy)]
struct Case<'a> {
    access: Access,
    cr3: u64,
    address: u64,
    // Entries of pages 1 to 4, at one place in the first page and at another in the next ones.
    entries: &'a [u64],
    first: usize,
    next: usize,
    length: usize,
}

impl Case<'_> {
    fn print(&self, rt: &impl Print) -> io::Result<()> {
        let Case {
            access,
            cr3,
            address,
            ..
        } = *self;
        let levels = access.levels;
        print!(rt; "{levels} levels, {access}, CR3 {cr3:x}, address {address:x}, entries")?;
        let mut memory = [0u8; MEMORY];
        let places = [
            0x1000 | self.first,
            0x2000 | self.next,
            0x3000 | self.next,
            0x4000 | self.next,
        ];
        for (at, entry) in places.iter().zip(self.entries) {
            crate::put_entry(&mut memory, levels, *at, *entry);
            print!(rt; " {at:x} {entry:x}")?;
        }
        let bytes = access.record(cr3);
        print_walk(rt, &bytes, &memory, self.length, address, access.way)
    }
}

fn print_walk(
    rt: &impl Print,
    bytes: &[u8],
    memory: &[u8; MEMORY],
    length: usize,
    address: u64,
    way: Way,
) -> io::Result<()> {
    let answer = crate::walk_part(bytes, memory, length, address, way);
    println!(rt; ", memory of {length:x}: {answer}")
}

// ---- The worked cases of the request: reads with NXE.

fn read(levels: u8, flags: u64) -> Access {
    Access {
        levels,
        way: Way::Read,
        flags,
    }
}

fn four(rt: &impl Print, flags: u64, entries: &[u64]) -> io::Result<()> {
    let case = Case {
        access: read(4, flags | Access::NXE),
        cr3: 0x1000,
        address: 0x80_4020_1ABC,
        entries,
        first: 8,
        next: 8,
        length: MEMORY,
    };
    case.print(rt)
}

// One entry, with 2 levels.
fn two(rt: &impl Print, flags: u64) -> io::Result<()> {
    let case = Case {
        access: read(2, flags | Access::NXE),
        cr3: 0x1000,
        address: 0xC0_1234,
        entries: &[0x80_2087],
        first: 0xC,
        next: 0,
        length: MEMORY,
    };
    case.print(rt)
}

// One entry, with 3 levels.
fn three(rt: &impl Print) -> io::Result<()> {
    let case = Case {
        access: read(3, Access::NXE),
        cr3: 0x1020,
        address: 0,
        entries: &[0x2003],
        first: 0x20,
        next: 0,
        length: MEMORY,
    };
    case.print(rt)
}

pub fn worked(rt: &impl Print) -> io::Result<()> {
    four(rt, 0, &[0x2007, 0x3007, 0x4007, 0x5007])?;
    four(rt, 0, &[0x2007, 0x3007, 0x2000_0087])?;
    four(rt, 0, &[0x2007, 0x3007, 0x2000_2087])?;
    four(rt, Access::USER, &[0x2003])?;
    four(rt, 0, &[0xF_FFFF_FFFF_F003])?;
    four(rt, 0, &[0x2003, 0xF_FFFF_FFFF_F003])?;
    two(rt, Access::PSE)?;
    two(rt, 0)?;
    three(rt)?;
    four(rt, Access::SMAP, &[0x2007, 0x3007, 0x4007, 0x5007])
}

// ---- What an entry breaks where the next one lies past the end; and the last entry of every table, with memory that ends where the last of them does and a byte before.

fn last_two(
    rt: &impl Print,
    levels: u8,
    first: usize,
    entries: &[u64],
    end: usize,
) -> io::Result<()> {
    for length in [end, end.saturating_sub(1)] {
        let next = if levels == 2 { 0xFFC } else { 0xFF8 };
        let case = Case {
            access: read(levels, 0),
            cr3: 0x1000,
            address: ALL,
            entries,
            first,
            next,
            length,
        };
        case.print(rt)?;
    }
    Ok(())
}

pub fn edges(rt: &impl Print) -> io::Result<()> {
    four(rt, 0, &[0xF_FFFF_FFFF_F002])?;
    four(rt, 0, &[0xF_FFFF_FFFF_F083])?;
    four(rt, Access::USER, &[0xF_FFFF_FFFF_F003])?;
    last_two(rt, 4, 0xFF8, &[0x2007, 0x3007, 0x4007, FAR], 0x5000)?;
    last_two(rt, 3, 0x18, &[0x2001, 0x3007, FAR], 0x4000)?;
    last_two(rt, 2, 0xFFC, &[0x2007, 0xFFFF_F007], 0x3000)
}

// ---- The numbers, and no paging.

pub fn numbers(rt: &impl Print) -> io::Result<()> {
    for (levels, way, length) in [
        (4, Way::Read, MEMORY),
        (4, Way::Write, MEMORY),
        (4, Way::Fetch, MEMORY),
        (4, Way::Other(3), MEMORY),
        (4, Way::Other(255), MEMORY),
        (4, Way::Other(3), 0),
        (4, Way::Read, 0),
        (3, Way::Read, 0),
        (2, Way::Read, 0),
        (0, Way::Read, 0),
        (0, Way::Write, 0),
        (0, Way::Fetch, 0),
        (0, Way::Other(3), 0),
    ] {
        let case = Case {
            access: Access {
                levels,
                way,
                flags: Access::WP,
            },
            cr3: 0x1000,
            address: 0x80_4020_1ABC,
            entries: &[0x2007, 0x3007, 0x4007, 0x5007],
            first: 8,
            next: 8,
            length,
        };
        case.print(rt)?;
    }
    let flat = Case {
        access: read(0, Access::USER | Access::NXE),
        cr3: ALL,
        address: ALL,
        entries: &[],
        first: 0,
        next: 0,
        length: MEMORY,
    };
    flat.print(rt)
}

// ---- The record: its length and its phase.

fn record(rt: &impl Print, bytes: &[u8], phase: u8, length: usize) -> io::Result<()> {
    let mut memory = [0; MEMORY];
    crate::put_tables(&mut memory, 4, 0);
    print!(rt; "record of {:x}, phase {phase}", bytes.len())?;
    print_walk(rt, bytes, &memory, length, crate::address_of(4), Way::Read)
}

fn in_phase(rt: &impl Print, phase: u8, length: usize) -> io::Result<()> {
    let mut bytes = read(4, 0).record(0x1000);
    bytes[Record::PHASE] = phase;
    record(rt, &bytes, phase, length)
}

pub fn records(rt: &impl Print) -> io::Result<()> {
    for phase in 0..=5 {
        in_phase(rt, phase, MEMORY)?;
    }
    in_phase(rt, 5, 0)?;
    record(rt, &[], 0, MEMORY)?;
    record(rt, &[0; Record::LENGTH - 1], 0, MEMORY)?;
    record(rt, &[0; Record::LENGTH + 1], 0, MEMORY)
}
