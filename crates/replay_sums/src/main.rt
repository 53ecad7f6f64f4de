// Answers lists that hold what their cases go on with: each case prints the sum so far of the first numbers. The oracle's lists have their state beside them, so
// only this program runs `replay::answer_input`.
#![tactic(auto)]

ghost use Rattle.std.specs.Prelude.{◌≡◌, ◌+◌, ◌%◌, ◌^◌, get_or};

use replay::{List, UnknownList};
use std::io;
use std::str::FromStr;

// The sum so far of the first numbers of a list's cases, in 64 bits.
#[derive(Drop)]
struct Sum(u64);

impl FromStr for Sum {
    type Err = UnknownList;

    fn from_str(name: &str) -> Result<Self, UnknownList> {
        match name {
            "sums" | "sums_of_a_list_whose_name_has_more_than_32_bytes" => Ok(Sum(0)),
            _ => Err(UnknownList),
        }
    }
}

impl List for Sum {
    fn answer(&mut self, rt: &impl Print, numbers: [u64; 8]) -> io::Result<()>
        ensures { self.new.0 ≡ (self.old.0 + get_or numbers 0 0) % 2 ^ 64 }
    {
        self.0 = self.0.wrapping_add(numbers[0]);
        replay::print_numbers(rt, &[self.0])
    }
}

fn main(rt: HostRuntime) -> io::Result<()> {
    replay::answer_input::<Sum>(&rt)
}
