// The walk of the guest's page tables, from a guest-virtual to a guest-physical address (document 02, N6; SDM 3A, 4.3 to 4.6), with physical addresses of 52 bits.
#![tactic(auto)]

ghost use Rattle.std.specs.Prelude.{◌≡◌, ◌+◌, ◌≤◌, ◌<◌, ◌^◌, length, true, MatchResult};
ghost use Rattle.definitions.specs.Refusals.{number};
ghost use Rattle.guest_paging.specs.Access as Kinds;
ghost use Rattle.guest_paging.specs.Answer.{access_number, rule_number, broken, walked_of, next_of};
ghost use Rattle.guest_paging.specs.Walk.{for_access, entry_size, index_of, place_of, entry_at, is_page, is_pae_top, reserved_high, reserved_low, reserved_bits, broken_right, broken_rule, passes_user, broken_at_page, page_address, at_page, next_table, entry_gives, level_gives, walk_from, top_table, cut_address, page_walk_of};

mod table;

use definitions::Refusal;
use record::words::Stored;
use table::Table;
use vcpu_readings::GuestPageWalkInfo;

// The kinds of access, by their numbers.
#[derive(Clone, Copy, Debug, PartialEq, Eq, Hash)]
pub enum Access {
    Read = 0,
    Write = 1,
    Fetch = 2,
}

// The kind with a number. Refusal 2: there is none.
impl TryFrom<u8> for Access {
    type Error = Refusal;

    ghost try_from_gives = { λ kind answer. MatchResult answer (λ access. (access_number access ≡ kind) × (kind ≤ Kinds.FETCH)) (λ refusal. (number refusal ≡ 2) × (Kinds.FETCH < kind)) };

    fn try_from(kind: u8) -> Result<Self, Refusal> {
        match kind {
            0 => Ok(Access::Read),
            1 => Ok(Access::Write),
            2 => Ok(Access::Fetch),
            _ => Err(Refusal::Bytes),
        }
    }
}

impl From<Access> for u8 {
    ghost from_gives = { λ access kind. kind ≡ access_number access };

    fn from(access: Access) -> u8 {
        access as u8
    }
}

// The rules that an entry is held to, by their numbers, in the order in which they are judged.
#[derive(Clone, Copy, Debug, PartialEq, Eq, Hash)]
pub enum Rule {
    NotPresent = 1,
    Reserved = 2,
    User = 3,
    Write = 4,
    Execute = 5,
    Smep = 6,
    Smap = 7,
}

impl From<Rule> for u64 {
    ghost from_gives = { λ rule n. n ≡ rule_number rule };

    fn from(rule: Rule) -> u64 {
        rule as u64
    }
}

// The bits of an entry that have a name, by their places.
#[derive(Drop)]
struct Entry {}

impl Entry {
    const P: u64 = 0;

    const RW: u64 = 1;

    const US: u64 = 2;

    const PS: u64 = 7;

    const XD: u64 = 63;
}

// The guest-physical address; or the level and the first rule that its entry breaks.
#[derive(Clone, Copy, Debug, PartialEq, Eq, Hash)]
pub enum Walked {
    Address(u64),
    Fails { level: u8, rule: Rule },
}

// After an entry: the walk's end, or the table below.
#[derive(Clone, Copy)]
enum Next {
    Ends(Walked),
    Below(Table),
}

// A reading for this kind of access. The kind is a number, and one of no kind is taken as a read: an `Access` would ask more of callers.
pub fn for_access(i: GuestPageWalkInfo, kind: u8) -> GuestPageWalkInfo
    ensures { result ≡ for_access i kind }
{
    GuestPageWalkInfo {
        is_write_access: kind == u8::from(Access::Write),
        is_inst_fetch: kind == u8::from(Access::Fetch),
        ..i
    }
}

// ---- a level of the tables

// Of how many levels, and which, the last of them 1.
#[derive(Clone, Copy)]
struct Level {
    levels: u8,
    level: u8,
}

impl Level {
    // The bytes of an entry.
    #[tactic(auto, unfolding(crate::specs::Walk::entry_size))]
    fn entry_size(self) -> u64
        ensures value { result ≡ entry_size self.levels }
        ensures upper_bound { result ≤ 8 }
    {
        match self.levels {
            2 => 4,
            _ => 8,
        }
    }

    // The index of an address into the table.
    #[tactic(auto, unfolding(crate::specs::Walk::index_of))]
    fn index_of(self, address: u64) -> u64
        ensures value { result ≡ index_of self.levels self.level address }
        ensures upper_bound { result < 1024 }
    {
        match (self.levels, self.level) {
            (2, 2) => (address >> 22) % 1024,
            (2, _) => (address >> 12) % 1024,
            (_, 4) => (address >> 39) % 512,
            (_, 3) => (address >> 30) % 512,
            (_, 2) => (address >> 21) % 512,
            _ => (address >> 12) % 512,
        }
    }

    // Where the entry of a table lies.
    #[tactic(auto, unfolding(crate::specs::Walk::place_of, crate::specs::Walk::entry_size))]
    fn place_of(self, address: u64, table: Table) -> u64
        ensures value { result ≡ place_of self.levels self.level address table.address }
        ensures upper_bound { result < 2 ^ 53 }
    {
        table.address + self.index_of(address) * self.entry_size()
    }

    #[tactic(auto, unfolding(crate::specs::Walk::entry_at, crate::specs::Walk::entry_size))]
    fn entry_at(self, memory: &[u8], at: usize) -> u64
        requires { at + entry_size self.levels ≤ length memory.now }
        ensures { result ≡ entry_at memory.now at self.levels }
    {
        match self.levels {
            2 => u64::from(u32::get(memory, at)),
            _ => u64::get(memory, at),
        }
    }

    // The entry maps a page: it is of the last level, or PS says so where it is judged.
    #[tactic(auto, unfolding(crate::specs::Walk::is_page))]
    fn is_page(self, pse: bool, e: u64) -> bool
        ensures { result ≡ is_page self.levels self.level pse e }
    {
        match (self.levels, self.level) {
            (_, 1) => true,
            (_, 2) | (4, 3) => pse && (e >> Entry::PS) % 2 == 1,
            _ => false,
        }
    }

    // An entry of PAE's top table has no rights.
    #[tactic(auto, unfolding(crate::specs::Walk::is_pae_top))]
    fn is_pae_top(self) -> bool
        ensures { result ≡ is_pae_top self.levels self.level }
    {
        self.levels == 3 && self.level == 3
    }

    // Reserved above the address: bit 63 without NXE, and with 3 levels bits 52 to 62.
    #[tactic(auto, unfolding(crate::specs::Walk::reserved_high))]
    fn reserved_high(self, nxe: bool) -> u64
        ensures { result ≡ reserved_high self.levels nxe }
    {
        match (self.levels, nxe) {
            (3, true) => 0x7FF0_0000_0000_0000,
            (3, false) => 0xFFF0_0000_0000_0000,
            (_, true) => 0,
            (_, false) => 0x8000_0000_0000_0000,
        }
    }

    // Reserved below the address of a large page, and PS in the top table of 4 levels.
    #[tactic(auto, unfolding(crate::specs::Walk::reserved_low))]
    fn reserved_low(self, page: bool) -> u64
        ensures { result ≡ reserved_low self.level page }
    {
        match (self.level, page) {
            (4, _) => 0x80,
            (3, true) => 0x3FFF_E000,
            (2, true) => 0x1F_E000,
            _ => 0,
        }
    }

    // The bits that must be 0: of a 4-MByte page bit 21; of an entry of PAE's top table bits 1, 2, 5 to 8 and 52 to 63.
    #[tactic(auto, unfolding(crate::specs::Walk::reserved_bits))]
    fn reserved_bits(self, page: bool, nxe: bool) -> u64
        ensures { result ≡ reserved_bits self.levels self.level page nxe }
    {
        match (self.levels, self.level) {
            (2, 2) if page => 0x20_0000,
            (2, _) => 0,
            _ if self.is_pae_top() => 0xFFF0_0000_0000_01E6,
            _ => self.reserved_high(nxe) | self.reserved_low(page),
        }
    }

    // The entry lets the user in, as far as it says.
    #[tactic(auto, unfolding(crate::specs::Walk::passes_user))]
    fn passes_user(self, e: u64) -> bool
        ensures { result ≡ passes_user self.levels self.level e }
    {
        self.is_pae_top() || (e >> Entry::US) % 2 == 1
    }

    // The address in the page that an entry maps.
    #[tactic(auto, unfolding(crate::specs::Walk::page_address))]
    fn page_address(self, e: u64, address: u64) -> u64
        ensures { result ≡ page_address self.levels self.level e address }
    {
        match (self.levels, self.level) {
            (_, 1) => (e >> 12) % 0x100_0000_0000 * 0x1000 + address % 0x1000,
            (2, 2) => {
                (e >> 13) % 256 * 0x1_0000_0000 + (e >> 22) % 1024 * 0x40_0000 + address % 0x40_0000
            }
            (_, 2) => (e >> 21) % 0x8000_0000 * 0x20_0000 + address % 0x20_0000,
            _ => (e >> 30) % 0x40_0000 * 0x4000_0000 + address % 0x4000_0000,
        }
    }
}

// ---- the rules

// The first of the rules on rights that an entry breaks.
#[tactic(auto, unfolding(crate::specs::Walk::broken_right))]
fn broken_right(i: GuestPageWalkInfo, e: u64) -> Option<Rule>
    ensures { broken result ≡ broken_right i e }
{
    if i.is_user_mode_access && (e >> Entry::US) % 2 == 0 {
        Some(Rule::User)
    } else if i.is_write_access && (e >> Entry::RW) % 2 == 0 && (i.is_user_mode_access || i.wp) {
        Some(Rule::Write)
    } else if i.is_inst_fetch && i.nxe && (e >> Entry::XD) % 2 == 1 {
        Some(Rule::Execute)
    } else {
        None
    }
}

// The first rule that an entry breaks by itself.
#[tactic(auto, unfolding(crate::specs::Walk::broken_rule))]
fn broken_rule(i: GuestPageWalkInfo, level: u8, page: bool, e: u64) -> Option<Rule>
    ensures { broken result ≡ broken_rule i level page e }
{
    let at = Level {
        levels: i.level,
        level,
    };
    if (e >> Entry::P) % 2 == 0 {
        Some(Rule::NotPresent)
    } else if e & at.reserved_bits(page, i.nxe) != 0 {
        Some(Rule::Reserved)
    } else if at.is_pae_top() {
        None
    } else {
        broken_right(i, e)
    }
}

// The rule that an access to a page breaks by the rights of all levels.
#[tactic(auto, unfolding(crate::specs::Walk::broken_at_page))]
fn broken_at_page(i: GuestPageWalkInfo, user: bool) -> Option<Rule>
    ensures { broken result ≡ broken_at_page i user }
{
    if i.is_user_mode_access || !user {
        None
    } else if i.is_inst_fetch {
        i.is_smep_on.then_some(Rule::Smep)
    } else {
        i.is_smap_on.then_some(Rule::Smap)
    }
}

// ---- the walk

// What a walk goes through, by which reading, and to which address.
#[derive(Clone, Copy)]
struct Walk<'a> {
    memory: &'a [u8],
    reading: GuestPageWalkInfo,
    address: u64,
}

impl Walk<'_> {
    fn level(&self, level: u8) -> Level
        ensures { result ≡ record { levels = self.now.reading.level; level = level } }
    {
        Level {
            levels: self.reading.level,
            level,
        }
    }

    // At an entry that maps a page, where every entry lets the user in, or not.
    #[tactic(auto, unfolding(crate::specs::Walk::at_page))]
    fn at_page(&self, level: u8, e: u64, user: bool) -> Walked
        ensures { walked_of (Ok result) ≡ at_page self.now.reading self.now.address level e user }
    {
        match broken_at_page(self.reading, user) {
            Some(rule) => Walked::Fails { level, rule },
            None => Walked::Address(self.level(level).page_address(e, self.address)),
        }
    }

    // An entry of a level, where every entry above lets the user in, or not.
    #[tactic(auto, unfolding(crate::specs::Walk::entry_gives))]
    fn entry_gives(&self, level: u8, user: bool, e: u64) -> Next
        ensures { next_of (Ok result) ≡ entry_gives self.now.reading self.now.address level user e }
    {
        let at = self.level(level);
        let page = at.is_page(self.reading.pse, e);
        if let Some(rule) = broken_rule(self.reading, level, page, e) {
            return Next::Ends(Walked::Fails { level, rule });
        }
        let all = user && at.passes_user(e);
        if page {
            return Next::Ends(self.at_page(level, e, all));
        }
        Next::Below(next_table(e, all))
    }

    // What the entry of a level gives. Refusal 26: it lies past the end of memory.
    #[tactic(auto, unfolding(crate::specs::Walk::level_gives))]
    fn level_gives(&self, level: u8, table: Table) -> Result<Next, Refusal>
        ensures { next_of result ≡ level_gives self.now.memory.now self.now.reading self.now.address level table.address table.user }
    {
        let tables = self.level(level);
        let at = tables.place_of(self.address, table);
        if (self.memory.len() as u64) < at + tables.entry_size() {
            return Err(Refusal::Memory);
        }
        let e = tables.entry_at(self.memory, at as usize);
        Ok(self.entry_gives(level, table.user, e))
    }

    // The walk from the table of a level down: each level takes the table below it until a page is met.
    #[tactic(auto, using(crate::proofs::WalkLaws::walk_step))]
    fn walk_level(&self, level: u8, table: Table) -> Result<Walked, Refusal>
        requires { 1 ≤ level }
        ensures { walked_of result ≡ walk_from self.now.memory.now self.now.reading self.now.address level table.address table.user }
    {
        match self.level_gives(level, table)? {
            Next::Ends(walked) => Ok(walked),
            Next::Below(below) => self.walk_level(level - 1, below),
        }
    }
}

// The table below an entry: bits 12 to 51, of which a 4-byte entry has those to 31.
fn next_table(e: u64, user: bool) -> Table
    ensures value { result.address ≡ next_table e }
    ensures opened { result.user ≡ user }
{
    Table {
        address: (e >> 12) % 0x100_0000_0000 * 0x1000,
        user,
    }
}

// The address of the top table: of CR3 bits 12 to 51 with 4 levels, 5 to 31 with 3, 12 to 31 with 2.
#[tactic(auto, unfolding(crate::specs::Walk::top_table))]
fn top_table(levels: u8, cr3: u64) -> Table
    ensures value { result.address ≡ top_table levels cr3 }
    ensures opened { result.user ≡ true }
{
    let address = match levels {
        4 => (cr3 >> 12) % 0x100_0000_0000 * 0x1000,
        3 => (cr3 >> 5) % 0x800_0000 * 0x20,
        _ => (cr3 >> 12) % 0x10_0000 * 0x1000,
    };
    Table {
        address,
        user: true,
    }
}

// 48 bits of an address with 4 levels, else 32.
#[tactic(auto, unfolding(crate::specs::Walk::cut_address))]
fn cut_address(levels: u8, address: u64) -> u64
    ensures { result ≡ cut_address levels address }
{
    match levels {
        4 => address % 0x1_0000_0000_0000,
        _ => address % 0x1_0000_0000,
    }
}

// The walk of an access that the reading describes. Without paging the answer is the address itself. Refusal 26: an entry lies past the end of memory.
#[tactic(auto, unfolding(crate::specs::Walk::page_walk_of))]
pub fn page_walk(memory: &[u8], i: GuestPageWalkInfo, address: u64) -> Result<Walked, Refusal>
    ensures { walked_of result ≡ page_walk_of memory.now i address }
{
    if i.level == 0 {
        return Ok(Walked::Address(address));
    }
    let walk = Walk {
        memory,
        reading: i,
        address: cut_address(i.level, address),
    };
    walk.walk_level(i.level, top_table(i.level, i.top_entry))
}
