// The lists that a program answers: each is named by its comment, and takes its cases one after the other.
ghost use Rattle.std.specs.Prelude.{◌≡◌, length};

use crate::text::{Line, Lines};
use std::fmt::{self, Display, Formatter};
use std::str::FromStr;
use std::{io, str};

// A list by the oracle's name, with what its cases go on with from one to the next. It is parsed anew at each comment.
pub trait List: FromStr<Err = UnknownList> + Drop {
    // Prints the answer to one case.
    fn answer(&mut self, rt: &impl Print, numbers: [u64; 8]) -> io::Result<()>;
}

// A list by the oracle's name, of no more than 32 bytes. What its cases go on with from one to the next stands beside it: a comment chooses a list, and copies no state.
pub trait StatefulList: FromStr<Err = UnknownList> + Drop {
    type State: Drop;

    // The state of a program that has answered no case.
    fn new_state() -> Self::State;

    // Begins the list: its part of the state is as new.
    fn begin(&self, state: &mut Self::State);

    // Prints the answer to one case.
    fn answer(&self, rt: &impl Print, state: &mut Self::State, numbers: [u64; 8]) -> io::Result<()>;
}

// No list that the program answers has this name.
#[derive(Clone, Copy)]
pub struct UnknownList;

impl Display for UnknownList {
    fn fmt<W: fmt::Write>(&self, f: &mut Formatter<W>) -> fmt::Result {
        f.write_str("no such list")
    }
}

// The list whose comment this is: the name stands after `# `, before the first comma. No more than `most` bytes are read for the name and its comma.
fn list_of<L: FromStr<Err = UnknownList>>(comment: &[u8], most: usize) -> Result<L, UnknownList> {
    let rest = comment.strip_prefix(b"# ").ok_or(UnknownList)?;
    let start = &rest[..rest.len().min(most)];
    let end = start.iter().position(|b| *b == b',').ok_or(UnknownList)?;
    let name = str::from_utf8(&rest[..end]).map_err(|_| UnknownList)?;
    name.parse()
}

// Copies each comment, and prints the answer to each case.
fn answer_all<L: List>(rt: &impl Print, text: &[u8]) -> io::Result<()> {
    let mut list: Result<L, UnknownList> = Err(UnknownList);
    for line in Lines::new(text) {
        match line {
            Line::Comment(comment) => {
                rt.write_all(comment)?;
                list = list_of(comment, comment.len());
            }
            Line::Case(numbers) => match &mut list {
                Ok(list) => list.answer(rt, numbers)?,
                Err(unknown) => println!(rt; "{unknown}")?,
            },
        }
    }
    Ok(())
}

// No `StatefulList` has a longer name.
const LONGEST_NAME: usize = 32;

// Begins the list whose comment this is.
fn begin<L: StatefulList>(comment: &[u8], state: &mut L::State) -> Result<L, UnknownList> {
    let list = list_of::<L>(comment, LONGEST_NAME + 1)?;
    list.begin(state);
    Ok(list)
}

// Copies each comment, and prints the answer to each case.
fn answer_all_with_state<L: StatefulList>(rt: &impl Print, text: &[u8]) -> io::Result<()> {
    let mut state = L::new_state();
    let mut list: Result<L, UnknownList> = Err(UnknownList);
    for line in Lines::new(text) {
        match line {
            Line::Comment(comment) => {
                rt.write_all(comment)?;
                list = begin(comment, &mut state);
            }
            Line::Case(numbers) => match &list {
                Ok(list) => list.answer(rt, &mut state, numbers)?,
                Err(unknown) => println!(rt; "{unknown}")?,
            },
        }
    }
    Ok(())
}

// 1,048,576 zeros: room for the lists that a program reads. On the heap the programs would rest on the C library's allocation too.
pub fn buffer() -> [u8; 0x10_0000]
    ensures { 0x100000 ≡ length result }
{
    [0; 0x10_0000]
}

// Answers the lists on standard input.
pub fn answer_input<L: List>(rt: &(impl Input + Print)) -> io::Result<()> {
    let mut input = buffer();
    let read = streams::fill(&mut rt.reader(), &mut input)?;
    answer_all::<L>(rt, &input[..read])
}

// Answers the lists on standard input. A comment is not read to its comma where that lies behind the longest name.
pub fn answer_input_with_state<L: StatefulList>(rt: &(impl Input + Print)) -> io::Result<()> {
    let mut input = buffer();
    let read = streams::fill(&mut rt.reader(), &mut input)?;
    answer_all_with_state::<L>(rt, &input[..read])
}
