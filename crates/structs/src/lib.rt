// The three intercept frames, I/O bitmaps A and B and the MSR bitmaps, and the EPT pointer.
// Ported from x86_vcpu src/vmx/structs.rs (Copyright 2025 The Axvisor Team, Apache-2.0). Changed: the frames are the caller's slices, all
// 4,096 bytes of an I/O bitmap are reached, a range is written by whole bytes, an edit that cannot be made answers its refusal, and the intercepts of
// reads, of writes and of both are set by one function, given the accesses.
#![tactic(auto)]

ghost use Rattle.std.specs.Prelude.{◌≡◌, ◌+◌, ◌-◌, ◌*◌, ◌≤◌, ◌<◌, length};
ghost use Rattle.bits.specs.Words.{with_bit};
ghost use Rattle.definitions.specs.Refusals.{refusal_of};
ghost use Rattle.structs.specs.Bitmap.{full_byte, set_bits};
ghost use Rattle.structs.specs.Frames.{set_ports, port_refusal, edit_ports, quarter_of, msr_refusal, edit_msrs};
ghost use Rattle.structs.specs.PortPart.{part_from, port_part};
ghost use Rattle.structs.specs.EPTPointer.{ept_pointer};

use definitions::Refusal;

// The bytes of a frame.
pub const FRAME_SIZE: usize = 4096;
// One past the last port.
const PORTS: usize = 0x1_0000;

// The first port of I/O bitmap B. The ports below it are in A.
const FIRST_PORT_OF_B: usize = 0x8000;
// The low MSRs are those below LOW_MSRS, and there are as many high ones, from HIGH_MSRS on. A quarter of the MSR bitmap has a bit for each.
const LOW_MSRS: usize = 0x2000;

pub const HIGH_MSRS: usize = 0xC000_0000;

const HIGH_MSRS_END: usize = 0xC000_2000;

// The byte with bit k set to v.
fn with_bit(k: u8, v: bool, byte: u8) -> u8
    requires { k < 8 }
    ensures { result ≡ with_bit k v byte }
{
    let one = 1u8 << k;
    if v { byte | one } else { byte & !one }
}

// The byte with all its bits v.
#[tactic(auto, unfolding(crate::specs::Bitmap::full_byte))]
pub fn full_byte(v: bool) -> u8
    ensures { result ≡ full_byte v }
{
    if v { 255 } else { 0 }
}

// Sets the bits from..to of the frame to v, a bit at a time.
#[tactic(auto, unfolding(crate::specs::Bitmap::set_bit))]
fn set_each(frame: &mut [u8], from: usize, to: usize, v: bool)
    requires { (from ≤ to) × (to ≤ 8 * length frame.old) }
    ensures { frame.new ≡ set_bits frame.old from (to - from) v }
{
    for n in from..to {
        let i = n / 8;
        frame[i] = with_bit((n % 8) as u8, v, frame[i]);
    }
}

// Sets all bits of the bytes first..last of the frame to v. A `fill` would need more stack in each call that edits a frame.
fn set_bytes(frame: &mut [u8], first: usize, last: usize, v: bool)
    requires { (first ≤ last) × (last ≤ length frame.old) }
    ensures { frame.new ≡ set_bits frame.old (8 * first) (8 * last - 8 * first) v }
{
    let full = full_byte(v);
    for i in first..last {
        frame[i] = full;
    }
}

// Sets the bits from..to of the frame to v: those up to a byte's start, whole bytes, and those that are left. Whole bytes make a long
// range as fast as a fill.
fn set_bits(frame: &mut [u8], from: usize, to: usize, v: bool)
    requires { (length frame.old ≡ 4096) × (from ≤ to) × (to ≤ 32768) }
    ensures { frame.new ≡ set_bits frame.old from (to - from) v }
{
    let first = from.div_ceil(8);
    let last = to / 8;
    if last <= first {
        set_each(frame, from, to, v);
    } else {
        set_each(frame, from, 8 * first, v);
        set_bytes(frame, first, last, v);
        set_each(frame, 8 * last, to, v);
    }
}

// The part of a slice from byte n to its end.
fn part_from<'a>(s: &'a [u8], n: usize) -> &'a [u8]
    requires { n ≤ length s.now }
    ensures { record { bytes = result.now; at = result.ref_ptr } ≡ part_from s.entry n }
{
    &s[n..]
}

// The part of A or of B that holds a port, from the port's byte to the frame's end. Where a frame has another length, or the port is
// above 65,535, the empty end of B.
#[tactic(auto, unfolding(crate::specs::Frames::port_index, crate::specs::PortPart::port_part))]
pub fn port_part<'a>(a: &'a [u8], b: &'a [u8], port: u32) -> &'a [u8]
    ensures { record { bytes = result.now; at = result.ref_ptr } ≡ port_part a.entry b.entry port }
{
    let p = port as usize;
    if a.len() != FRAME_SIZE || b.len() != FRAME_SIZE || PORTS <= p {
        return part_from(b, b.len());
    }
    if p < FIRST_PORT_OF_B {
        return part_from(a, p / 8);
    }
    part_from(b, (p - FIRST_PORT_OF_B) / 8)
}

// Sets the intercepts of count ports from `from` on to v: those below FIRST_PORT_OF_B in A, the others in B.
// A and B come one by one, as C lends them; a wrong length is an answer (2), not excluded by a type.
fn set_ports(a: &mut [u8], b: &mut [u8], from: usize, count: usize, v: bool)
    requires { (length a.old ≡ 4096) × (length b.old ≡ 4096) × (from + count ≤ 65536) }
    ensures { record { a = a.new; b = b.new } ≡ set_ports (record { a = a.old; b = b.old }) from count v }
{
    let to = from + count;
    let from_a = from.min(FIRST_PORT_OF_B);
    let to_a = to.min(FIRST_PORT_OF_B);
    set_bits(a, from_a, to_a, v);
    set_bits(b, from - from_a, to - to_a, v);
}

// The refusal of an edit of count ports from port_base on, in frames of these lengths.
#[tactic(auto, unfolding(crate::specs::Frames::port_refusal))]
pub fn port_refusal(len_a: usize, len_b: usize, port_base: u32, count: u32) -> Result<(), Refusal>
    ensures { refusal_of result ≡ port_refusal len_a len_b port_base count }
{
    if len_a != FRAME_SIZE || len_b != FRAME_SIZE {
        return Err(Refusal::Bytes);
    }
    if count != 0 && PORTS < port_base as usize + count as usize {
        return Err(Refusal::Port);
    }
    Ok(())
}

// Sets the intercepts of count ports from port_base on (IOBitmap::set_intercept_of_range).
#[tactic(auto, unfolding(crate::specs::Frames::edit_ports, crate::specs::Frames::set_ports))]
pub fn set_intercept_of_range(
    a: &mut [u8],
    b: &mut [u8],
    port_base: u32,
    count: u32,
    intercept: bool,
) -> Result<(), Refusal>
    ensures { record { refusal = refusal_of result; a = a.new; b = b.new } ≡ edit_ports a.old b.old port_base count intercept }
{
    port_refusal(a.len(), b.len(), port_base, count)?;
    if count != 0 {
        set_ports(a, b, port_base as usize, count as usize, intercept);
    }
    Ok(())
}

// Sets the intercept of one port (IOBitmap::set_intercept). The part that holds it is picked and read; the byte is stored in the frame
// itself, since after a store through a `&mut` part nothing would be known of the two frames.
#[tactic(auto, unfolding(crate::specs::Frames::edit_ports))]
pub fn set_intercept(a: &mut [u8], b: &mut [u8], port: u32, intercept: bool) -> Result<(), Refusal>
    ensures { record { refusal = refusal_of result; a = a.new; b = b.new } ≡ edit_ports a.old b.old port 1 intercept }
{
    port_refusal(a.len(), b.len(), port, 1)?;
    let p = port as usize;
    let part = port_part(&a[..], &b[..], port);
    let byte = with_bit((p % 8) as u8, intercept, part[0]);
    if p < FIRST_PORT_OF_B {
        a[p / 8] = byte;
    } else {
        b[(p - FIRST_PORT_OF_B) / 8] = byte;
    }
    Ok(())
}

// An access to an MSR.
#[derive(Clone, Copy)]
pub enum Access {
    Read,
    Write,
}

// The quarter of the MSR bitmap that holds an access to an MSR.
#[tactic(auto, unfolding(crate::specs::Frames::quarter_of))]
fn quarter(access: Access, msr: usize) -> usize
    ensures { result ≡ quarter_of access msr }
{
    match (access, msr < LOW_MSRS) {
        (Access::Read, true) => 0,
        (Access::Read, false) => 1,
        (Access::Write, true) => 2,
        (Access::Write, false) => 3,
    }
}

// The refusal of an edit of the MSRs from..to, in a frame of this length.
#[tactic(auto, unfolding(crate::specs::Frames::msr_refusal))]
pub fn msr_refusal(len: usize, from: usize, to: usize) -> Result<(), Refusal>
    ensures { refusal_of result ≡ msr_refusal len from to }
{
    if len != FRAME_SIZE {
        return Err(Refusal::Bytes);
    }
    if to <= LOW_MSRS {
        return Ok(());
    }
    if from < HIGH_MSRS || HIGH_MSRS_END < to {
        return Err(Refusal::Msr);
    }
    Ok(())
}

// Sets the intercepts of these accesses to count MSRs from msr_base on (of MsrBitmap, set_intercept, set_read_intercept and set_write_intercept).
#[tactic(auto, using(crate::proofs::MsrLaws::quarter_le), unfolding(crate::specs::Frames::edit_msrs, crate::specs::Frames::set_msrs))]
pub fn set_msr_intercepts(
    frame: &mut [u8],
    accesses: &[Access],
    msr_base: u32,
    count: u32,
    intercept: bool,
) -> Result<(), Refusal>
    ensures { record { refusal = refusal_of result; frame = frame.new } ≡ edit_msrs frame.old msr_base count accesses.now intercept }
{
    let from = msr_base as usize;
    let msrs = count as usize;
    msr_refusal(frame.len(), from, from + msrs)?;
    for access in accesses {
        let bit = quarter(*access, from) * LOW_MSRS + from % LOW_MSRS;
        set_bits(frame, bit, bit + msrs, intercept);
    }
    Ok(())
}

// EPT paging-structure memory type: write-back.
const MEM_TYPE_WB: u64 = 6;
// EPT page-walk length 4.
const WALK_LENGTH_4: u64 = 3 << 3;
// Enables accessed and dirty flags for EPT.
const ENABLE_ACCESSED_DIRTY: u64 = 1 << 6;

const PAGE_SIZE: u64 = 4096;

// The EPT pointer of the table at an address (EPTPointer::from_table_phys).
#[tactic(auto, unfolding(crate::specs::EPTPointer::ept_pointer))]
pub fn ept_pointer(root: u64) -> u64
    ensures { result ≡ ept_pointer root }
{
    root & !(PAGE_SIZE - 1) | MEM_TYPE_WB | WALK_LENGTH_4 | ENABLE_ACCESSED_DIRTY
}
