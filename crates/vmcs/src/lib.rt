// The VMCS: its fields, control words, control registers and exit words.
// Ported from x86_vcpu src/vmx/vmcs.rs (Copyright 2025 The Axvisor Team, Apache-2.0). Changed: fields are values in four arrays
// and not reached by vmread and vmwrite, and what the Rust panics at is refused by a number.
#![tactic(auto)]

ghost use Rattle.std.specs.Prelude.{◌≡◌, ◌<◌, ◌^◌, ◌-◌, IfOk};
ghost use Rattle.definitions.specs.Refusals.{numbered, refusal_of};
ghost use Rattle.vmcs.specs.Field.{width_bits, value_of, put};
ghost use Rattle.vmcs.specs.Named.{encodings};
ghost use Rattle.vmcs.specs.Fields.{position_of, place_in_table, field_at, width_of, greatest_of, read_only, vmcs_read, write_refusal, vmcs_write, written_from};

pub mod controls;
pub mod exit_info;
pub mod flags;
pub mod names;
pub mod table;

use definitions::Refusal;

// The fields by width, each array in ascending order of encoding.
#[derive(Clone, Copy)]
pub struct Vmcs {
    pub w16: [u16; 17],
    pub w32: [u32; 50],
    pub w64: [u64; 41],
    pub natural: [u64; 46],
}

// The place of an encoding in the table. The fields of a width and kind have the indexes from 0 on without a gap, except that no field is 0x482C, so
// 0x482E is tested by itself.
#[tactic(auto, unfolding(crate::specs::Lookup::lookup))]
pub fn position(encoding: u64) -> Option<usize>
    ensures { result ≡ place_in_table encoding }
{
    if encoding == 0x482E {
        return Some(106);
    }
    if 0x8000 <= encoding {
        return None;
    }
    if encoding % 2 == 1 {
        return None;
    }
    let group = encoding >> 10;
    let index = (encoding >> 1) % 512;
    if table::count_of(group) <= index {
        return None;
    }
    Some((table::start_of(group) + index) as usize)
}

// The width in bits of an encoding's field, by ranges of encodings, an arm for each section of SDM 3D, appendix B. The natural
// width is 64. A number above 0x7FFF encodes no field and has no width: the 64 given there means nothing.
#[tactic(auto, unfolding(crate::specs::Fields::width_of))]
pub fn width_of(encoding: u64) -> u32
    ensures { result ≡ width_of encoding }
{
    match encoding {
        // B.1, 16-bit fields
        0..=0x1FFF => 16,
        // B.2, 64-bit fields
        0x2000..=0x3FFF => 64,
        // B.3, 32-bit fields
        0x4000..=0x5FFF => 32,
        // B.4, natural-width fields, to 0x7FFF
        0x6000.. => 64,
    }
}

// The greatest number that a field of an encoding holds.
#[tactic(auto, unfolding(crate::specs::Fields::greatest_of))]
fn greatest_of(encoding: u64) -> u64
    ensures { result ≡ greatest_of encoding }
{
    match width_of(encoding) {
        16 => 0xFFFF,
        32 => 0xFFFF_FFFF,
        _ => 0xFFFF_FFFF_FFFF_FFFF,
    }
}

// Kind 1, bits 10 to 11, is read-only.
fn read_only(encoding: u64) -> bool
    ensures { result ≡ read_only encoding }
{
    (encoding >> 10) % 4 == 1
}

// What the field at a place of the table holds.
#[tactic(auto, unfolding(crate::specs::Fields::field_at))]
fn value_at(v: Vmcs, place: usize) -> u64
    requires { place < 154 }
    ensures { result ≡ value_of v (field_at place) }
{
    if place < 17 {
        return v.w16[place] as u64;
    }
    if place < 58 {
        return v.w64[place - 17];
    }
    if place < 108 {
        return v.w32[place - 58] as u64;
    }
    v.natural[place - 108]
}

// The fields with a value in the one at a place of the table.
#[tactic(auto, unfolding(crate::specs::Fields::field_at))]
fn put_at(v: Vmcs, place: usize, value: u64) -> Vmcs
    requires { (place < 154) × (value < 2 ^ width_bits (field_at place)) }
    ensures { result ≡ put v (field_at place) value }
{
    let mut next = v;
    if place < 17 {
        next.w16[place] = value as u16;
        return next;
    }
    if place < 58 {
        next.w64[place - 17] = value;
        return next;
    }
    if place < 108 {
        next.w32[place - 58] = value as u32;
        return next;
    }
    next.natural[place - 108] = value;
    next
}

// A field by its encoding. Refusal 3: no such encoding.
#[tactic(auto, unfolding(crate::specs::Fields::vmcs_read, crate::specs::Fields::place_in_table))]
pub fn vmcs_read(v: Vmcs, encoding: u64) -> Result<u64, Refusal>
    ensures { numbered result ≡ vmcs_read v encoding }
{
    match position(encoding) {
        Some(place) => Ok(value_at(v, place)),
        None => Err(Refusal::Encoding),
    }
}

// The place at which a value may be written. Refusals: 3, no such encoding; 4, read-only; 5, the value is wider than the field.
#[tactic(auto, unfolding(crate::specs::Fields::write_refusal, crate::specs::Fields::place_in_table))]
pub fn place_to_write(encoding: u64, value: u64) -> Result<usize, Refusal>
    ensures refusal { refusal_of result ≡ write_refusal encoding value }
    ensures place { IfOk result (λ place. place ≡ position_of encodings encoding) }
{
    let Some(place) = position(encoding) else {
        return Err(Refusal::Encoding);
    };
    if read_only(encoding) {
        return Err(Refusal::ReadOnly);
    }
    if greatest_of(encoding) < value {
        return Err(Refusal::Width);
    }
    Ok(place)
}

// The fields with a value in one of them. Refusals: 3, 4, 5.
pub fn vmcs_write(v: Vmcs, encoding: u64, value: u64) -> Result<Vmcs, Refusal>
    ensures { written_from v result ≡ vmcs_write v encoding value }
{
    let place = place_to_write(encoding, value)?;
    Ok(put_at(v, place, value))
}
