// Numbers as a line prints them: in hexadecimal.
use std::fmt;
use std::fmt::{Display, Formatter};

// Numbers parted by blanks.
#[derive(Drop)]
pub struct Numbers<'a>(pub &'a [u64]);

impl Display for Numbers<'_> {
    fn fmt<W: fmt::Write>(&self, f: &mut Formatter<W>) -> fmt::Result {
        let Some((first, rest)) = self.0.split_first() else {
            return Ok(());
        };
        write!(f, "{first:x}{}", Arguments(rest))
    }
}

// Numbers with a blank before each.
#[derive(Drop)]
pub struct Arguments<'a>(pub &'a [u64]);

impl Display for Arguments<'_> {
    fn fmt<W: fmt::Write>(&self, f: &mut Formatter<W>) -> fmt::Result {
        for number in self.0 {
            write!(f, " {number:x}")?;
        }
        Ok(())
    }
}
