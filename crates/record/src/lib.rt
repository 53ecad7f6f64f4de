// The byte record of a session, which the host kernel holds and hands to each call.
#![tactic(auto)]

ghost use Rattle.std.specs.Prelude.{◌≡◌, ◌<◌, length, get_or};
ghost use mathlib.Core.List.{[], ◌∷◌};
ghost use Rattle.definitions.specs.Refusals.{refusal_of};
ghost use Rattle.regs.specs.Registers.{list_of, of_list};
ghost use Rattle.vmcs.specs.Field.{Word16, Word32, Word64, Natural, value_of};
ghost use Rattle.vmcs.specs.Fields.{field_at};
ghost use Rattle.record.specs.Record.{LENGTH, PHASE, LAUNCHED, ENTRIES, HELD, W16, W32, W64, NATURAL, WAITING, VECTORS, CODED, CODES, PAIRS, CR0, CR4, XCR0, SUPPORTED};
ghost use Rattle.record.specs.Runs.{stored_at, numbers, number_bytes, Numbers};
ghost use Rattle.record.specs.Codec.{pair_of, pair_bytes, fixed_of, fixed_bytes, session_of, progress_parts, vmcs_parts, queue_parts, capability_parts, xcr0_parts, encode_of, accepted_of, decoded_by, decode_of, encoded, encoded_of};
ghost use Rattle.record.specs.Sizes.{length_pair_bytes, length_fixed_bytes, length_register_bytes};
ghost use Rattle.record.specs.Fitting.{ProgressFits, VmcsFits, QueueFits, PairFits, FixedFits, CapabilitiesFit, Xcr0Fits, Fitting};

pub mod words;

use definitions::Refusal;
use regs::GeneralRegisters;
use vcpu_session::{Capabilities, Fixed, Progress, Queue, Session, Xcr0};
use vmcs::Vmcs;
use vmcs::controls::Pair;
use words::Stored;

// How long a record is, and where each part starts. Nothing lies between the parts, and numbers stand least significant byte first.
#[derive(Drop)]
pub struct Record {}

impl Record {
    pub const LENGTH: usize = 1485;

    // 1 byte, 0 to 4.
    pub const PHASE: usize = 0;

    // A yes/no byte: 1 is yes, 0 is no.
    pub const LAUNCHED: usize = 1;

    // 4 bytes.
    pub const ENTRIES: usize = 2;

    // 4 bytes, at most the entries.
    pub const HELD: usize = 6;

    // 16 of 8 bytes, in the order of their encoding.
    pub const REGS: usize = 10;

    // The fields of the VMCS by width, each in ascending order of encoding: 17 of 2 bytes.
    pub const W16: usize = 138;

    // 50 of 4 bytes.
    pub const W32: usize = 172;

    // 41 of 8 bytes.
    pub const W64: usize = 372;

    // 46 of 8 bytes.
    pub const NATURAL: usize = 700;

    // How many events wait: 1 byte, at most 64.
    pub const WAITING: usize = 1068;

    // 64 of 1 byte, the front first.
    pub const VECTORS: usize = 1069;

    // Whether each event has an error code: 8 bytes, bit i for place i.
    pub const CODED: usize = 1133;

    // 64 of 4 bytes.
    pub const CODES: usize = 1141;

    // The pairs of the control words, in the order pin, primary, secondary, exit, entry: 5 of allowed-0 (4 bytes) and allowed-1 (4 bytes).
    pub const PAIRS: usize = 1397;

    // Fixed-0 and fixed-1 of CR0, 8 bytes each.
    pub const CR0: usize = 1437;

    // Fixed-0 and fixed-1 of CR4, 8 bytes each.
    pub const CR4: usize = 1453;

    // XCR0, and the bits of it that the host supports: 8 bytes each.
    pub const XCR0: usize = 1469;

    pub const SUPPORTED: usize = 1477;
}

// ---- A pair of a control word, and the fixed bits of a control register. proofs/Capabilities.antt says which are the session's.

impl Stored for Pair {
    ghost SIZE = { 8 };

    ghost read = { pair_of };

    ghost write = { pair_bytes };

    ghost Fits = { PairFits };

    const SIZE: usize = 8;

    #[tactic(auto, unfolding(crate::specs::Codec::pair_of))]
    fn get(b: &[u8], at: usize) -> Pair {
        Pair {
            allowed0: u32::get(b, at),
            allowed1: u32::get(b, at + 4),
        }
    }

    #[tactic(auto, unfolding(crate::specs::Codec::pair_bytes))]
    fn put(b: &mut [u8], at: usize, v: Pair) {
        u32::put(b, at, v.allowed0);
        u32::put(b, at + 4, v.allowed1);
    }

    ghost size = { length_pair_bytes };
}

impl Stored for Fixed {
    ghost SIZE = { 16 };

    ghost read = { fixed_of };

    ghost write = { fixed_bytes };

    ghost Fits = { FixedFits };

    const SIZE: usize = 16;

    #[tactic(auto, unfolding(crate::specs::Codec::fixed_of))]
    fn get(b: &[u8], at: usize) -> Fixed {
        Fixed {
            fixed0: u64::get(b, at),
            fixed1: u64::get(b, at + 8),
        }
    }

    #[tactic(auto, unfolding(crate::specs::Codec::fixed_bytes))]
    fn put(b: &mut [u8], at: usize, v: Fixed) {
        u64::put(b, at, v.fixed0);
        u64::put(b, at + 8, v.fixed1);
    }

    ghost size = { length_fixed_bytes };
}

// ---- The registers, in the order of their encoding.

impl Stored for GeneralRegisters {
    ghost SIZE = { 128 };

    ghost read = { λ bs. of_list (numbers 8 16 bs) };

    ghost write = { λ g. number_bytes 8 (list_of g) };

    ghost Fits = { λ g. Numbers 16 8 (list_of g) };

    const SIZE: usize = 128;

    fn get(b: &[u8], at: usize) -> GeneralRegisters {
        let mut regs = [0u64; 16];
        words::get_all(&mut regs, b, at);
        GeneralRegisters::from(regs)
    }

    fn put(b: &mut [u8], at: usize, v: GeneralRegisters) {
        words::put_all(b, at, &<[u64; 16]>::from(v));
    }

    ghost size = { length_register_bytes };
}

// ---- Which bytes are a record.

// Refusal 2 is its negation. It reads what it tests, and no more.
#[tactic(auto, unfolding(crate::specs::Codec::accepted_of))]
pub fn accepts(b: &[u8]) -> bool
    ensures { result ≡ accepted_of b.now }
{
    if b.len() != Record::LENGTH {
        return false;
    }
    let phase = u8::get(b, Record::PHASE);
    let launched = u8::get(b, Record::LAUNCHED);
    let entries = u32::get(b, Record::ENTRIES);
    let held = u32::get(b, Record::HELD);
    let waiting = u8::get(b, Record::WAITING);
    (phase <= 4) & (launched <= 1) & (held <= entries) & (waiting <= 64)
}

// ---- Reading a record of the right length. The length is a clause and not the type `[u8; Record::LENGTH]`: of a `&mut [u8]` that the library's `TryFrom`
// makes an array of, its contract does not say what the slice holds afterwards, so the functions that write could not be called.

#[tactic(auto, unfolding(crate::specs::Codec::session_of))]
pub fn progress_at(b: &[u8]) -> Progress
    requires { length b.now ≡ LENGTH }
    ensures { result ≡ (session_of b.now).progress }
{
    Progress {
        phase: u8::get(b, Record::PHASE),
        launched: bool::get(b, Record::LAUNCHED),
        entries: u32::get(b, Record::ENTRIES),
        held: u32::get(b, Record::HELD),
    }
}

#[tactic(auto, unfolding(crate::specs::Codec::session_of))]
pub fn phase_at(b: &[u8]) -> u8
    requires { length b.now ≡ LENGTH }
    ensures { result ≡ (session_of b.now).progress.phase }
{
    u8::get(b, Record::PHASE)
}

#[tactic(auto, unfolding(crate::specs::Codec::session_of))]
pub fn waiting_at(b: &[u8]) -> u8
    requires { length b.now ≡ LENGTH }
    ensures { result ≡ (session_of b.now).queue.waiting }
{
    u8::get(b, Record::WAITING)
}

// Whether each event has an error code, bit i for place i.
#[tactic(auto, unfolding(crate::specs::Codec::session_of))]
pub fn coded_at(b: &[u8]) -> u64
    requires { length b.now ≡ LENGTH }
    ensures { result ≡ (session_of b.now).queue.coded }
{
    u64::get(b, Record::CODED)
}

#[tactic(auto, unfolding(crate::specs::Codec::session_of))]
fn vmcs_at(b: &[u8]) -> Vmcs
    requires { length b.now ≡ LENGTH }
    ensures { result ≡ (session_of b.now).vmcs }
{
    let mut w16 = [0u16; 17];
    words::get_all(&mut w16, b, Record::W16);
    let mut w32 = [0u32; 50];
    words::get_all(&mut w32, b, Record::W32);
    let mut w64 = [0u64; 41];
    words::get_all(&mut w64, b, Record::W64);
    let mut natural = [0u64; 46];
    words::get_all(&mut natural, b, Record::NATURAL);
    Vmcs {
        w16,
        w32,
        w64,
        natural,
    }
}

#[tactic(auto, unfolding(crate::specs::Codec::session_of))]
fn queue_at(b: &[u8]) -> Queue
    requires { length b.now ≡ LENGTH }
    ensures { result ≡ (session_of b.now).queue }
{
    let mut vectors = [0u8; 64];
    words::get_all(&mut vectors, b, Record::VECTORS);
    let mut codes = [0u32; 64];
    words::get_all(&mut codes, b, Record::CODES);
    Queue {
        waiting: u8::get(b, Record::WAITING),
        vectors,
        coded: coded_at(b),
        codes,
    }
}

#[tactic(auto, unfolding(crate::specs::Codec::session_of))]
fn capabilities_at(b: &[u8]) -> Capabilities
    requires { length b.now ≡ LENGTH }
    ensures { result ≡ (session_of b.now).capabilities }
{
    let mut pairs = [Pair {
        allowed0: 0,
        allowed1: 0,
    }; 5];
    words::get_all(&mut pairs, b, Record::PAIRS);
    Capabilities {
        pairs,
        cr0: Fixed::get(b, Record::CR0),
        cr4: Fixed::get(b, Record::CR4),
    }
}

#[tactic(auto, unfolding(crate::specs::Codec::session_of))]
pub fn xcr0_at(b: &[u8]) -> Xcr0
    requires { length b.now ≡ LENGTH }
    ensures { result ≡ (session_of b.now).xcr0 }
{
    Xcr0 {
        value: u64::get(b, Record::XCR0),
        supported: u64::get(b, Record::SUPPORTED),
    }
}

#[tactic(auto, unfolding(crate::specs::Codec::session_of))]
pub fn session_at(b: &[u8]) -> Session
    requires { length b.now ≡ LENGTH }
    ensures { result ≡ session_of b.now }
{
    Session {
        progress: progress_at(b),
        regs: GeneralRegisters::get(b, Record::REGS),
        vmcs: vmcs_at(b),
        queue: queue_at(b),
        capabilities: capabilities_at(b),
        xcr0: xcr0_at(b),
    }
}

// The session of a record, or refusal 2. The exported calls use `accepts` and read what they need, so that a refused call builds no session.
#[tactic(auto, unfolding(crate::specs::Codec::decode_of))]
pub fn decode(b: &[u8]) -> Result<Session, Refusal>
    ensures { decoded_by result ≡ decode_of b.now }
{
    if !accepts(b) {
        return Err(Refusal::Bytes);
    }
    Ok(session_at(b))
}

// ---- Reading one value of a record in place.

// The register at an index.
#[tactic(auto, unfolding(crate::specs::Codec::session_of))]
pub fn reg_at(b: &[u8], index: usize) -> u64
    requires { (length b.now ≡ LENGTH) × (index < 16) }
    ensures { result ≡ get_or (list_of (session_of b.now).regs) index 0 }
{
    u64::get(b, Record::REGS + index * 8)
}

// The fields at a place of the array of their width. Each width has its own function: a trait of widths takes an impl for each that is longer
// than the function, here and once more for the stores of record_edits, and its callers would have to name the width beside the field's name.
#[tactic(auto, unfolding(crate::specs::Codec::session_of))]
fn w16_at(b: &[u8], place: usize) -> u16
    requires { (length b.now ≡ LENGTH) × (place < 17) }
    ensures { result ≡ value_of (session_of b.now).vmcs (Word16 place) }
{
    u16::get(b, Record::W16 + place * 2)
}

#[tactic(auto, unfolding(crate::specs::Codec::session_of))]
pub fn w32_at(b: &[u8], place: usize) -> u32
    requires { (length b.now ≡ LENGTH) × (place < 50) }
    ensures { result ≡ value_of (session_of b.now).vmcs (Word32 place) }
{
    u32::get(b, Record::W32 + place * 4)
}

#[tactic(auto, unfolding(crate::specs::Codec::session_of))]
pub fn w64_at(b: &[u8], place: usize) -> u64
    requires { (length b.now ≡ LENGTH) × (place < 41) }
    ensures { result ≡ value_of (session_of b.now).vmcs (Word64 place) }
{
    u64::get(b, Record::W64 + place * 8)
}

#[tactic(auto, unfolding(crate::specs::Codec::session_of))]
pub fn natural_at(b: &[u8], place: usize) -> u64
    requires { (length b.now ≡ LENGTH) × (place < 46) }
    ensures { result ≡ value_of (session_of b.now).vmcs (Natural place) }
{
    u64::get(b, Record::NATURAL + place * 8)
}

// The field at a place of the table, where the widths stand in the order 16, 64, 32, natural.
#[tactic(auto, unfolding(vmcs::specs::Fields::field_at))]
pub fn field_at(b: &[u8], place: usize) -> u64
    requires { (length b.now ≡ LENGTH) × (place < 154) }
    ensures { result ≡ value_of (session_of b.now).vmcs (field_at place) }
{
    match place {
        0..17 => w16_at(b, place) as u64,
        17..58 => w64_at(b, place - 17),
        58..108 => w32_at(b, place - 58) as u64,
        _ => natural_at(b, place - 108),
    }
}

// ---- Writing a record of the right length. Each function also says that what it stores fits its type: what is stored is read back only then.

fn put_progress(b: &mut [u8], p: Progress)
    requires { length b.old ≡ LENGTH }
    ensures b_after { b.new ≡ stored_at (PHASE ∷ LAUNCHED ∷ ENTRIES ∷ HELD ∷ []) (progress_parts p) b.old }
    ensures progress_fits { ProgressFits p }
{
    u8::put(b, Record::PHASE, p.phase);
    bool::put(b, Record::LAUNCHED, p.launched);
    u32::put(b, Record::ENTRIES, p.entries);
    u32::put(b, Record::HELD, p.held);
}

fn put_vmcs(b: &mut [u8], v: Vmcs)
    requires { length b.old ≡ LENGTH }
    ensures b_after { b.new ≡ stored_at (W16 ∷ W32 ∷ W64 ∷ NATURAL ∷ []) (vmcs_parts v) b.old }
    ensures vmcs_fits { VmcsFits v }
{
    words::put_all(b, Record::W16, &v.w16);
    words::put_all(b, Record::W32, &v.w32);
    words::put_all(b, Record::W64, &v.w64);
    words::put_all(b, Record::NATURAL, &v.natural);
}

fn put_queue(b: &mut [u8], q: Queue)
    requires { length b.old ≡ LENGTH }
    ensures b_after { b.new ≡ stored_at (WAITING ∷ VECTORS ∷ CODED ∷ CODES ∷ []) (queue_parts q) b.old }
    ensures queue_fits { QueueFits q }
{
    u8::put(b, Record::WAITING, q.waiting);
    words::put_all(b, Record::VECTORS, &q.vectors);
    u64::put(b, Record::CODED, q.coded);
    words::put_all(b, Record::CODES, &q.codes);
}

fn put_capabilities(b: &mut [u8], c: Capabilities)
    requires { length b.old ≡ LENGTH }
    ensures b_after { b.new ≡ stored_at (PAIRS ∷ CR0 ∷ CR4 ∷ []) (capability_parts c) b.old }
    ensures capabilities_fit { CapabilitiesFit c }
{
    words::put_all(b, Record::PAIRS, &c.pairs);
    Fixed::put(b, Record::CR0, c.cr0);
    Fixed::put(b, Record::CR4, c.cr4);
}

fn put_xcr0(b: &mut [u8], x: Xcr0)
    requires { length b.old ≡ LENGTH }
    ensures b_after { b.new ≡ stored_at (XCR0 ∷ SUPPORTED ∷ []) (xcr0_parts x) b.old }
    ensures xcr0_fits { Xcr0Fits x }
{
    u64::put(b, Record::XCR0, x.value);
    u64::put(b, Record::SUPPORTED, x.supported);
}

pub fn put_session(b: &mut [u8], s: Session)
    requires { length b.old ≡ LENGTH }
    ensures b_after { b.new ≡ encode_of s }
    ensures fitting { Fitting s }
{
    put_progress(b, s.progress);
    GeneralRegisters::put(b, Record::REGS, s.regs);
    put_vmcs(b, s.vmcs);
    put_queue(b, s.queue);
    put_capabilities(b, s.capabilities);
    put_xcr0(b, s.xcr0);
}

// Refusal 2: the length is wrong. The bytes are then as they were.
#[tactic(auto, unfolding(crate::specs::Codec::encoded_of))]
pub fn encode(b: &mut [u8], s: Session) -> Result<(), Refusal>
    ensures b_after { encoded (refusal_of result) b.new ≡ encoded_of s b.old }
    ensures fitting { refusal_of result ≡ 0 → Fitting s }
{
    if b.len() != Record::LENGTH {
        return Err(Refusal::Bytes);
    }
    put_session(b, s);
    Ok(())
}
