// What the replay programs share: lists read from standard input, and the answers printed. The format is in oracle/README.md.
#![tactic(auto)]

mod digest;
mod lines;
mod lists;
mod numbers;
mod text;

ghost use Rattle.std.specs.Prelude.{◌≡◌, ◌%◌};

pub use digest::digest_of;
pub use lines::{answered, print_answer, print_line};
pub use lists::{List, StatefulList, UnknownList, answer_input, answer_input_with_state, buffer};
use numbers::Numbers;
use std::io;
pub use text::{Case, case_at};

// The low byte of a case's number, where a call takes 8 bits.
pub fn low_byte(number: u64) -> u8
    ensures { result ≡ number % 0x100 }
{
    (number % 0x100) as u8
}

// Prints numbers parted by blanks, and ends the line.
pub fn print_numbers(rt: &impl Print, numbers: &[u64]) -> io::Result<()> {
    println!(rt; "{}", Numbers(numbers))
}
