// The text of lists: each is a comment, and then a case to a line, small hexadecimal numbers parted by blanks.
ghost use Rattle.std.specs.Prelude.{◌≡◌, ◌+◌, ◌-◌, ◌≤◌, min, length};
ghost use Rattle.std.specs.Iterator.{at_most};
ghost use Rattle.replay.specs.Text.{digit_value, number_at, IsPrefixLen, after_byte, case_at, line_end, StepsLine};

// A number, and the place after it and its blank.
#[derive(Drop)]
struct Number {
    value: u64,
    next: usize,
}

// A case: its numbers, 0 past the last, and the place of the next case.
#[derive(Drop)]
pub struct Case {
    pub numbers: [u64; 8],
    pub next: usize,
}

// The value of a digit. Letters, and no decimal digits, have bit 6; the low four bits of `a` are 1. `char::to_digit` says that other bytes have no value, and this
// list's reading gives each byte one.
fn digit_value(b: u8) -> u64
    ensures { result ≡ digit_value b }
{
    ((b % 16 + b / 64 * 9) % 16) as u64
}

// The number at a place, ended by a byte below `0`: 0 where no digit stands there. Of more than 16 digits the last 16 count.
fn number_at(text: &[u8], at: usize) -> Number
    ensures value { result ≡ number_at text.now at }
    ensures at_le_next { at ≤ result.next }
{
    let mut value: u64 = 0;
    for i in at..text.len() {
        if text[i] == b' ' {
            return Number { value, next: i + 1 };
        }
        if text[i] < b'0' {
            return Number { value, next: i };
        }
        value = value % 0x1000_0000_0000_0000 * 16 + digit_value(text[i]);
    }
    Number {
        value,
        next: at.max(text.len()),
    }
}

// The place after the byte at a place, if one stands there.
fn after(text: &[u8], at: usize) -> usize
    ensures { result ≡ after_byte (length text.now) at }
{
    if at < text.len() { at + 1 } else { at }
}

// The case at a place: up to eight numbers, and the byte that ends their line.
pub fn case_at(text: &[u8], at: usize) -> Case
    ensures value { result ≡ case_at text.now at }
    ensures text_bound { min (at + 1) (length text.now) ≤ result.next }
{
    let a = number_at(text, at);
    let b = number_at(text, a.next);
    let c = number_at(text, b.next);
    let d = number_at(text, c.next);
    let e = number_at(text, d.next);
    let f = number_at(text, e.next);
    let g = number_at(text, f.next);
    let h = number_at(text, g.next);
    Case {
        numbers: [
            a.value, b.value, c.value, d.value, e.value, f.value, g.value, h.value,
        ],
        next: after(text, h.next),
    }
}

// The place after the first line.
pub fn line_end(text: &[u8]) -> usize
    ensures value { result ≡ line_end text.now }
    ensures prefix_len { IsPrefixLen result text.now }
    ensures lower_bound { min 1 (length text.now) ≤ result }
{
    text.iter()
        .position(|b| *b == b'\n')
        .map_or(text.len(), |i| i + 1)
}

// A line of a text.
#[derive(Drop)]
pub enum Line<'a> {
    Comment(&'a [u8]),
    Case([u64; 8]),
}

// The lines of a text from a place on.
#[derive(Drop)]
pub struct Lines<'a> {
    text: &'a [u8],
    at: usize,
}

impl<'a> Lines<'a> {
    pub fn new(text: &'a [u8]) -> Self
        ensures whole { result.text.now ≡ text.now }
        ensures start { result.at ≡ 0 }
    {
        Lines { text, at: 0 }
    }
}

impl<'a> Iterator for Lines<'a> {
    type Item = Line<'a>;

    ghost next_gives = { StepsLine };

    ghost remaining = { λ s. at_most (length s.text.now - s.at) };

    fn next(&mut self) -> Option<Line<'a>> {
        let rest = self.text.get(self.at..)?;
        if *rest.first()? == b'#' {
            let comment = &rest[..line_end(rest)];
            self.at += comment.len();
            Some(Line::Comment(comment))
        } else {
            let case = case_at(self.text, self.at);
            self.at = case.next;
            Some(Line::Case(case.numbers))
        }
    }
}
