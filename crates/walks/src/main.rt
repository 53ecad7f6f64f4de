// Prints walks of the guest's page tables (document 02, N6) as the exported function answers them: cases with all that they depend on; and of each kind of entry the smallest one that breaks each rule,
// then many walks to a line, a mark for each. Numbers are hexadecimal, but levels, rules, refusals and bits by their places decimal. tools/walks.py says what must be printed, and what the marks are.
#![tactic(auto)]

mod cases;
mod rules;
mod sweeps;

use record::Record;
use record::words::Stored;
use std::fmt::{Display, Formatter};
use std::{fmt, io};

// What the answer's words hold before a walk.
const BEFORE: [u64; 3] = [0xEEEE; 3];

// The refusal of an entry that lies past the end of memory.
const PAST_MEMORY: u32 = 26;

// Numbers as C answers them: this program is to notice a wrong one, and uses none of the core's enums.
#[derive(Clone, Copy)]
enum Answer {
    Address(u64),
    Fails { level: u64, rule: u64 },
    // A refused walk writes none of the answer's words.
    Refused { refusal: u32, is_written: bool },
    // The words are none that a walk answers.
    Neither,
}

impl Display for Answer {
    fn fmt<W: fmt::Write>(&self, f: &mut Formatter<W>) -> fmt::Result {
        match *self {
            Answer::Address(address) => write!(f, "address {address:x}"),
            Answer::Fails { level, rule } => write!(f, "level {level} rule {rule}"),
            Answer::Refused {
                refusal,
                is_written,
            } => {
                let written = if is_written { ", written" } else { "" };
                write!(f, "refused {refusal}{written}")
            }
            Answer::Neither => f.write_str("neither"),
        }
    }
}

fn walk(bytes: &[u8], memory: &[u8], address: u64, way: Way) -> Answer {
    let mut words = BEFORE;
    let kind = u8::from(way);
    let refusal = x86_vcpu::readings::vcpu_page_walk(bytes, memory, address, kind, &mut words);
    // An exported call answers a number.
    if refusal != 0 {
        return Answer::Refused {
            refusal,
            is_written: words != BEFORE,
        };
    }
    match words {
        [0, address, 0] => Answer::Address(address),
        [1, level, rule] => Answer::Fails { level, rule },
        _ => Answer::Neither,
    }
}

// Memory that ends at this length, or where all of it ends.
fn walk_part(bytes: &[u8], memory: &[u8], length: usize, address: u64, way: Way) -> Answer {
    walk(bytes, memory.get(..length).unwrap_or(memory), address, way)
}

// ---- The access, and the record of a guest that makes it: what a walk depends on but for memory and address

// A kind of access, or a number that is none.
#[derive(Clone, Copy)]
enum Way {
    Read,
    Write,
    Fetch,
    Other(u8),
}

impl From<Way> for u8 {
    fn from(way: Way) -> u8 {
        match way {
            Way::Read => 0,
            Way::Write => 1,
            Way::Fetch => 2,
            Way::Other(number) => number,
        }
    }
}

impl Display for Way {
    fn fmt<W: fmt::Write>(&self, f: &mut Formatter<W>) -> fmt::Result {
        match *self {
            Way::Read => f.write_str("read"),
            Way::Write => f.write_str("write"),
            Way::Fetch => f.write_str("fetch"),
            Way::Other(number) => write!(f, "kind {number}"),
        }
    }
}

// The fields, by their encodings.
const EFER: u64 = 0x2806;

const SS_RIGHTS: u64 = 0x4818;

const CR0: u64 = 0x6800;

const CR3: u64 = 0x6802;

const CR4: u64 = 0x6804;

// The levels of the guest's page tables, the kind of access, and the flags that are set.
#[derive(Clone, Copy)]
struct Access {
    levels: u8,
    way: Way,
    flags: u64,
}

impl Access {
    // A flag is its bit of CR0, of CR4 or of EFER; and USER is DPL 3 of SS, 40 bits above its place in the rights. So a case joins its flags by `|`.
    const WP: u64 = 0x1_0000;

    const PSE: u64 = 0x10;

    const SMEP: u64 = 0x10_0000;

    const SMAP: u64 = 0x20_0000;

    const NXE: u64 = 0x800;

    const USER: u64 = 0x6000_0000_0000;

    // The record of a guest that makes this access.
    fn record(self, cr3: u64) -> [u8; Record::LENGTH] {
        let flags = self.flags | paging(self.levels);
        let mut bytes = [0u8; Record::LENGTH];
        write_field(&mut bytes, CR0, flags & 0x8001_0000);
        write_field(&mut bytes, CR3, cr3);
        write_field(&mut bytes, CR4, flags & 0x30_0030);
        write_field(&mut bytes, EFER, flags & 0xC00);
        write_field(&mut bytes, SS_RIGHTS, flags >> 40);
        bytes
    }
}

// Who accesses, how, and the flags.
impl Display for Access {
    fn fmt<W: fmt::Write>(&self, f: &mut Formatter<W>) -> fmt::Result {
        let Access { way, flags, .. } = *self;
        let is_user = flags & Self::USER != 0;
        let who = if is_user { "user" } else { "supervisor" };
        write!(f, "{who} {way}")?;
        for (flag, name) in [
            (Self::WP, "WP"),
            (Self::PSE, "PSE"),
            (Self::SMEP, "SMEP"),
            (Self::SMAP, "SMAP"),
            (Self::NXE, "NXE"),
        ] {
            if flags & flag != 0 {
                write!(f, ", {name}")?;
            }
        }
        Ok(())
    }
}

// CR0.PG, CR4.PAE and EFER.LMA.
fn paging(levels: u8) -> u64 {
    match levels {
        0 => 0,
        2 => 0x8000_0000,
        3 => 0x8000_0020,
        _ => 0x8000_0420,
    }
}

fn write_field(bytes: &mut [u8; Record::LENGTH], encoding: u64, value: u64) {
    x86_vcpu::session::vcpu_write_field(bytes, encoding, value);
}

fn put_top(bytes: &mut [u8; Record::LENGTH], cr3: u64) {
    write_field(bytes, CR3, cr3);
}

// ---- Memory
//
// Memory that holds the tables of a walk. The table of level l has page 5 - l, and the walk takes its entry 5 - l; the page that they lead to is page 5. Below the level under test the table has page 0
// instead, so that the entry under test leads there with no bit of an address.

const MEMORY: usize = 0x6000;

fn put_entry(memory: &mut [u8; MEMORY], levels: u8, at: usize, entry: u64) {
    if levels == 2 {
        if at < MEMORY - 3 {
            u32::put(memory, at, (entry % 0x1_0000_0000) as u32);
        }
    } else if at < MEMORY - 7 {
        u64::put(memory, at, entry);
    }
}

// The address that is walked.
fn address_of(levels: u8) -> u64 {
    match levels {
        2 => 0xC0_4ABC,
        3 => 0x8060_4ABC,
        _ => 0x80_8060_4ABC,
    }
}

// The page of the table of a level. CR3 is that of the top table.
fn page_of(level: u8) -> u64 {
    match level {
        4 => 0x1000,
        3 => 0x2000,
        2 => 0x3000,
        1 => 0x4000,
        _ => 0x5000,
    }
}

// The table of a level, where another is under test.
fn table_of(level: u8, tested: u8) -> u64 {
    if tested > 1 && level == tested - 1 {
        0
    } else {
        page_of(level)
    }
}

// Where the entry of a level lies.
fn place_of(levels: u8, level: u8, tested: u8) -> usize {
    let in_table = match levels {
        2 => page_of(level) / 0x400,
        _ => page_of(level) / 0x200,
    };
    (table_of(level, tested) | in_table) as usize
}

// What an entry that lets everyone pass has beside its address: P, RW and US, of PAE's top table P.
fn open_of(levels: u8, level: u8) -> u64 {
    match (levels, level) {
        (3, 3) => 1,
        _ => 7,
    }
}

// Puts the tables, with every entry open, into memory that is 0. An array that is answered would be copied to where the caller has it.
fn put_tables(memory: &mut [u8; MEMORY], levels: u8, tested: u8) {
    for level in 1..=levels {
        let entry = table_of(level - 1, tested) | open_of(levels, level);
        put_entry(memory, levels, place_of(levels, level, tested), entry);
    }
}

// ---- The mark of a walk

// The number with a bit turned; it has none above 63.
fn turned(number: u64, bit: u64) -> u64 {
    if bit < 64 {
        number ^ (1 << bit)
    } else {
        number
    }
}

fn address_mark(address: u64, home: Option<u64>, bit: Option<u64>) -> u8 {
    match (home, bit) {
        (Some(home), _) if address == home => b'.',
        (Some(home), Some(bit)) if address == turned(home, bit) => b'=',
        (Some(home), Some(bit)) if bit < 64 && address == turned(home, bit + 19) => b'^',
        _ => b'*',
    }
}

// A digit at this level, a letter at another.
fn rule_mark(level: u64, rule: u64, at: u8) -> u8 {
    let number = (rule % 8) as u8;
    if level == u64::from(at) {
        b'0' + number
    } else {
        b'`' + number
    }
}

// Of an entry at this level, with a bit turned or none.
fn mark(answer: Answer, at: u8, home: Option<u64>, bit: Option<u64>) -> u8 {
    match answer {
        Answer::Address(address) => address_mark(address, home, bit),
        Answer::Fails { level, rule } => rule_mark(level, rule, at),
        Answer::Refused {
            refusal: PAST_MEMORY,
            ..
        } => b'R',
        Answer::Refused { .. } | Answer::Neither => b'*',
    }
}

// The level at which nothing is present.
fn level_mark(answer: Answer, home: Option<u64>, bit: u64) -> u8 {
    match answer {
        Answer::Fails { level, rule: 1 } => b'0' + (level % 8) as u8,
        _ => mark(answer, 0, home, Some(bit)),
    }
}

// Eight marks stand together.
fn print_mark(rt: &impl Print, mark: u8, number: u64) -> io::Result<()> {
    if number % 8 == 0 {
        rt.write_all(b" ")?;
    }
    rt.write_all(&[mark])
}

// ---- The kinds of entries

// An entry at a level.
#[derive(Clone, Copy)]
struct Kind {
    levels: u8,
    level: u8,
    // PS, where that makes it a page.
    bits: u64,
    // With 2 levels CR4.PSE.
    flags: u64,
    // The lowest bit that is reserved without NXE, by its place.
    reserved: Option<u64>,
    // One that is reserved with NXE too, other than RW and US, or is ignored.
    spare: u64,
}

impl Kind {
    // Entries that lead to this table.
    fn leading(self, table: u64) -> Self {
        Kind {
            bits: table,
            ..self
        }
    }

    // Without CR4.PSE.
    fn without(self) -> Self {
        Kind { flags: 0, ..self }
    }

    // Else it leads to a table.
    fn is_page(self) -> bool {
        self.level == 1 || self.bits == 0x80
    }

    fn by(self, way: Way, flags: u64) -> Access {
        Access {
            levels: self.levels,
            way,
            flags: flags | self.flags,
        }
    }

    // The record of a guest that makes an access.
    fn record(self, access: Access) -> [u8; Record::LENGTH] {
        access.record(page_of(self.levels))
    }

    // Where an entry lies.
    fn place(self) -> usize {
        place_of(self.levels, self.level, self.level)
    }

    // Puts the tables, with this entry under test.
    fn put_tables(self, memory: &mut [u8; MEMORY]) {
        put_tables(memory, self.levels, self.level);
    }

    fn put(self, memory: &mut [u8; MEMORY], entry: u64) {
        put_entry(memory, self.levels, self.place(), entry);
    }

    // The entry that lets everyone pass.
    fn open(self) -> u64 {
        self.bits | open_of(self.levels, self.level)
    }
}

impl Display for Kind {
    fn fmt<W: fmt::Write>(&self, f: &mut Formatter<W>) -> fmt::Result {
        let Kind { levels, level, .. } = *self;
        let leads_to = if self.is_page() { "page" } else { "table" };
        write!(f, "{levels} levels, level {level}, {leads_to}, ")
    }
}

fn each_kind(rt: &impl Print) -> io::Result<()> {
    for (levels, level, bits, flags, reserved, spare) in [
        (4, 4, 0, 0, Some(7), 7),
        (4, 3, 0x80, 0, Some(13), 13),
        (4, 3, 0, 0, Some(63), 52),
        (4, 2, 0x80, 0, Some(13), 13),
        (4, 2, 0, 0, Some(63), 52),
        (4, 1, 0, 0, Some(63), 52),
        (3, 3, 0, 0, Some(1), 5),
        (3, 2, 0x80, 0, Some(13), 13),
        (3, 2, 0, 0, Some(52), 52),
        (3, 1, 0, 0, Some(52), 52),
        (2, 2, 0x80, Access::PSE, Some(21), 21),
        (2, 2, 0, Access::PSE, None, 9),
        (2, 1, 0, Access::PSE, None, 9),
    ] {
        let kind = Kind {
            levels,
            level,
            bits,
            flags,
            reserved,
            spare,
        };
        rules::rules(rt, kind)?;
        sweeps::sweeps(rt, kind)?;
    }
    Ok(())
}

fn main(rt: HostRuntime) -> io::Result<()> {
    cases::worked(&rt)?;
    cases::edges(&rt)?;
    cases::numbers(&rt)?;
    cases::records(&rt)?;
    each_kind(&rt)
}
