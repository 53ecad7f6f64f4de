// Of each rule that an entry can break: the smallest one that breaks it first; that one with the bit turned of which the rule speaks; and the smallest one with the flag turned of which it speaks, if it
// does. Rules are numbers as C answers them: this program is to notice a wrong one, and uses none of the core's enums.
use crate::{Access, Answer, Kind, MEMORY, Way};
use std::fmt::{Display, Formatter};
use std::{fmt, io};

const P: u64 = 1;

const RW: u64 = 2;

const US: u64 = 4;

const XD: u64 = 0x8000_0000_0000_0000;

// An access, an entry and the answer.
#[derive(Clone, Copy)]
struct Met {
    access: Access,
    entry: u64,
    answer: Answer,
}

impl Display for Met {
    fn fmt<W: fmt::Write>(&self, f: &mut Formatter<W>) -> fmt::Result {
        let Met {
            access,
            entry,
            answer,
        } = *self;
        write!(f, "{access} {entry:x} {answer}")
    }
}

fn meet(k: Kind, access: Access, entry: u64) -> Met {
    let bytes = k.record(access);
    let mut memory = [0; MEMORY];
    k.put_tables(&mut memory);
    k.put(&mut memory, entry);
    Met {
        access,
        entry,
        answer: crate::walk(&bytes, &memory, crate::address_of(k.levels), access.way),
    }
}

// A rule, and the smallest entry that breaks it: by which access, which flags are turned, and the entry with its bit turned.
#[derive(Clone, Copy)]
struct Broken {
    rule: u64,
    way: Way,
    flags: u64,
    others: u64,
    entry: u64,
    turned: u64,
}

impl Broken {
    fn print(self, rt: &impl Print, k: Kind) -> io::Result<()> {
        let rule = self.rule;
        let smallest = meet(k, k.by(self.way, self.flags), self.entry);
        let bit_turned = meet(k, k.by(self.way, self.flags), self.turned);
        let flag_turned = meet(k, k.by(self.way, self.others), self.entry);
        println!(rt; "{k}rule {rule}: {smallest}; {bit_turned}; {flag_turned}")
    }
}

fn presence(rt: &impl Print, k: Kind) -> io::Result<()> {
    let present = k.bits | P;
    let absent = Broken {
        rule: 1,
        way: Way::Read,
        flags: 0,
        others: Access::USER,
        entry: k.bits,
        turned: present,
    };
    absent.print(rt, k)?;
    if let Some(bit) = k.reserved {
        let reserved = Broken {
            rule: 2,
            others: Access::NXE,
            entry: crate::turned(present, bit),
            ..absent
        };
        reserved.print(rt, k)?;
    }
    Ok(())
}

// An entry of 4 bytes has no XD.
fn rights(rt: &impl Print, k: Kind) -> io::Result<()> {
    let present = k.bits | P;
    let user = Broken {
        rule: 3,
        way: Way::Read,
        flags: Access::USER,
        others: 0,
        entry: present,
        turned: present | US,
    };
    let write = Broken {
        rule: 4,
        way: Way::Write,
        flags: Access::WP,
        turned: present | RW,
        ..user
    };
    user.print(rt, k)?;
    write.print(rt, k)?;
    if k.levels != 2 {
        let fetch = Broken {
            rule: 5,
            way: Way::Fetch,
            flags: Access::NXE,
            entry: present | XD,
            turned: present,
            ..user
        };
        fetch.print(rt, k)?;
    }
    Ok(())
}

fn prevention(rt: &impl Print, k: Kind) -> io::Result<()> {
    let present = k.bits | P;
    let smep = Broken {
        rule: 6,
        way: Way::Fetch,
        flags: Access::SMEP,
        others: 0,
        entry: present | US,
        turned: present,
    };
    let smap = Broken {
        rule: 7,
        way: Way::Read,
        flags: Access::SMAP,
        ..smep
    };
    smep.print(rt, k)?;
    smap.print(rt, k)
}

// Those that an entry of this kind can break.
pub fn rules(rt: &impl Print, k: Kind) -> io::Result<()> {
    presence(rt, k)?;
    if k.levels != 3 || k.level != 3 {
        rights(rt, k)?;
    }
    if k.is_page() {
        prevention(rt, k)?;
    }
    Ok(())
}
