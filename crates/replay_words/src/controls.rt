// CR0 and CR4, EFER, and the EPT pointer.
use std::io;
use vmcs::controls::{CrWords, Pair};

// The first number is the register's: the oracle's list names it by a number.
pub fn set_cr(rt: &impl Print, numbers: [u64; 8]) -> io::Result<()> {
    let [register, value, fixed0, fixed1, ..] = numbers;
    let CrWords {
        value,
        shadow,
        mask,
    } = match register {
        0 => vmcs::controls::cr0_words(fixed0, fixed1, value),
        _ => vmcs::controls::cr4_words(fixed0, fixed1, value),
    };
    replay::print_numbers(rt, &[value, shadow, mask])
}

pub fn update_efer(rt: &impl Print, numbers: [u64; 8]) -> io::Result<()> {
    let [efer, entry, allowed0, allowed1, ..] = numbers;
    let pair = Pair {
        allowed0: bits::low(allowed0),
        allowed1: bits::low(allowed1),
    };
    let updated = vmcs::controls::update_efer(pair, efer, bits::low(entry));
    let words = updated.map(|words| [words.efer, u64::from(words.entry)]);
    replay::print_answer(rt, words.map_err(u32::from))
}

pub fn ept_pointer(rt: &impl Print, numbers: [u64; 8]) -> io::Result<()> {
    let [root, ..] = numbers;
    replay::print_numbers(rt, &[structs::ept_pointer(root)])
}
