// Control words, and the guest's CR0, CR4 and EFER.
// Ported from `set_control` and `update_efer` of x86_vcpu src/vmx/vmcs.rs, and `set_cr` of src/vmx/vcpu.rs (Copyright 2025 The Axvisor Team, Apache-2.0).
// Changed: capability words come in as numbers, results go out and are not written to fields, and what the Rust panics at is refused by a number.
ghost use Rattle.std.specs.Prelude.{◌≡◌};
ghost use Rattle.definitions.specs.Refusals.{numbered};
ghost use Rattle.vmcs.specs.Control.{set_control, control_word, word_permitted, all_permitted};
ghost use Rattle.vmcs.specs.Cr.{cr_words, cr0_words, cr4_words};
ghost use Rattle.vmcs.specs.Efer.{is_long_mode, lacks_ia32e, update_efer, updated_from};

use crate::flags::{Cr0Flags, Cr4Flags, EferFlags, EntryControls};
use definitions::Refusal;

// What a control word may be: the bits that must be 1, and those that may be.
#[derive(Clone, Copy)]
pub struct Pair {
    pub allowed0: u32,
    pub allowed1: u32,
}

// The word with the bits of set set and those of clear cleared: what is flexible and neither keeps its old value (SDM 3D, A.2 to A.5; the Rust cites 31.5.1, algorithm 3, of an older edition).
#[tactic(auto, unfolding(crate::specs::Control::control_word))]
pub fn control_word(pair: Pair, old: u32, set: u32, clear: u32) -> u32
    ensures { result ≡ control_word 32 pair.allowed0 pair.allowed1 old set clear }
{
    let flexible = !pair.allowed0 & pair.allowed1;
    let unknown = flexible & !(set | clear);
    let default = unknown & old;
    pair.allowed0 | default | set
}

// Refusals: 6, allowed-0 has a bit that allowed-1 lacks; 7, set and clear share a bit; 8, a set bit is not in allowed-1; 9, a cleared
// bit is in allowed-0.
#[tactic(auto, unfolding(crate::specs::Control::set_control))]
pub fn set_control(pair: Pair, old: u32, set: u32, clear: u32) -> Result<u32, Refusal>
    ensures { numbered result ≡ set_control 32 pair.allowed0 pair.allowed1 old set clear }
{
    if pair.allowed0 & pair.allowed1 != pair.allowed0 {
        return Err(Refusal::Pair);
    }
    if set & clear != 0 {
        return Err(Refusal::SetAndClear);
    }
    if set & pair.allowed1 != set {
        return Err(Refusal::Set);
    }
    if pair.allowed0 & clear != 0 {
        return Err(Refusal::Clear);
    }
    Ok(control_word(pair, old, set, clear))
}

// Whether a word has all of allowed-0 and nothing outside allowed-1.
fn word_permitted(pair: Pair, word: u32) -> bool
    ensures { result ≡ word_permitted pair word }
{
    (pair.allowed0 & word == pair.allowed0) & (word & pair.allowed1 == word)
}

// The five words in order: pin, primary, secondary, exit, entry.
pub fn all_permitted(pairs: [Pair; 5], words: [u32; 5]) -> bool
    ensures { result ≡ all_permitted pairs words }
{
    word_permitted(pairs[0], words[0])
        & word_permitted(pairs[1], words[1])
        & word_permitted(pairs[2], words[2])
        & word_permitted(pairs[3], words[3])
        & word_permitted(pairs[4], words[4])
}

// A guest control register: its value, its read shadow and its guest/host mask.
#[derive(Clone, Copy)]
pub struct CrWords {
    pub value: u64,
    pub shadow: u64,
    pub mask: u64,
}

fn cr_words(must0: u64, must1: u64, val: u64) -> CrWords
    ensures { result ≡ cr_words must0 must1 val }
{
    CrWords {
        value: val & must0 | must1,
        shadow: val,
        mask: must1 | !must0,
    }
}

// The words of the bits that are set and cleared below, one bit each.
const PE: u64 = 1 << Cr0Flags::PROTECTED_MODE_ENABLE;

const NW: u64 = 1 << Cr0Flags::NOT_WRITE_THROUGH;

const CD: u64 = 1 << Cr0Flags::CACHE_DISABLE;

const PG: u64 = 1 << Cr0Flags::PAGING;

const VMXE: u64 = 1 << Cr4Flags::VIRTUAL_MACHINE_EXTENSIONS;

const LMA: u64 = 1 << EferFlags::LONG_MODE_ACTIVE;

const IA32E_MODE_GUEST: u32 = 1 << EntryControls::IA32E_MODE_GUEST;

// Every bit of EFER that has a name.
const EFER_NAMED: u64 = 1 << EferFlags::SYSTEM_CALL_EXTENSIONS
    | 1 << EferFlags::LONG_MODE_ENABLE
    | 1 << EferFlags::LONG_MODE_ACTIVE
    | 1 << EferFlags::NO_EXECUTE_ENABLE
    | 1 << EferFlags::SECURE_VIRTUAL_MACHINE_ENABLE
    | 1 << EferFlags::LONG_MODE_SEGMENT_LIMIT_ENABLE
    | 1 << EferFlags::FAST_FXSAVE_FXRSTOR
    | 1 << EferFlags::TRANSLATION_CACHE_EXTENSION;

// CR0: NW and CD are kept off, PG and PE are the guest's (`set_cr`).
pub fn cr0_words(fixed0: u64, fixed1: u64, val: u64) -> CrWords
    ensures { result ≡ cr0_words fixed0 fixed1 val }
{
    cr_words(fixed1 & !(NW | CD), fixed0 & !(PG | PE), val)
}

// CR4: VMXE is added to what is asked for, so that the read shadow has it too (`set_cr`).
pub fn cr4_words(fixed0: u64, fixed1: u64, val: u64) -> CrWords
    ensures { result ≡ cr4_words fixed0 fixed1 val }
{
    cr_words(fixed1, fixed0, val | VMXE)
}

// EFER and the entry controls after paging is turned on.
#[derive(Clone, Copy, Debug, PartialEq, Eq)]
pub struct EferWords {
    pub efer: u64,
    pub entry: u32,
}

// LME and LMA are both set.
#[tactic(auto, unfolding(crate::specs::Efer::is_long_mode))]
fn is_long_mode(efer: u64) -> bool
    ensures { result ≡ is_long_mode efer }
{
    ((efer >> EferFlags::LONG_MODE_ENABLE) % 2 == 1)
        & ((efer >> EferFlags::LONG_MODE_ACTIVE) % 2 == 1)
}

#[tactic(auto, unfolding(crate::specs::Efer::lacks_ia32e))]
fn lacks_ia32e(pair: Pair) -> bool
    ensures { result ≡ lacks_ia32e pair.allowed1 }
{
    (pair.allowed1 >> EntryControls::IA32E_MODE_GUEST) % 2 == 0
}

// Unless LME and LMA are both set: LMA is set, unnamed bits of EFER go, and the entry word gets IA-32e mode guest. Refusal 8: the pair does
// not allow that.
#[tactic(auto, unfolding(crate::specs::Efer::update_efer))]
pub fn update_efer(pair: Pair, efer: u64, entry: u32) -> Result<EferWords, Refusal>
    ensures { updated_from efer entry result ≡ update_efer pair efer entry }
{
    if is_long_mode(efer) {
        return Ok(EferWords { efer, entry });
    }
    if lacks_ia32e(pair) {
        Err(Refusal::Set)
    } else {
        Ok(EferWords {
            efer: efer & EFER_NAMED | LMA,
            entry: control_word(pair, entry, IA32E_MODE_GUEST, 0),
        })
    }
}
