// The lines of a text.
ghost use Rattle.std.specs.Prelude.{◌≡◌, ◌≤◌, length};
ghost use Rattle.sheet.specs.Sheet.{line_length};

// The lines that are left, each without its line feed; the last may lack it.
#[derive(Drop)]
pub struct Lines<'a> {
    pub rest: &'a [u8],
}

// How many bytes stand before the first line feed.
fn line_length(s: &[u8]) -> usize
    ensures value { result ≡ line_length s.now }
    ensures upper_bound { result ≤ length s.now }
{
    s.iter().position(|b| *b == b'\n').unwrap_or(s.len())
}

impl<'a> Iterator for Lines<'a> {
    ghost use Rattle.std.specs.Iterator.{YieldsFirstRef, item_count};
    ghost use Rattle.sheet.specs.Left.{left};

    type Item = &'a [u8];

    ghost next_gives = { YieldsFirstRef left };

    ghost remaining = { item_count left };

    fn next(&mut self) -> Option<&'a [u8]> {
        let rest = self.rest;
        if rest.is_empty() {
            return None;
        }
        let n = line_length(rest);
        self.rest = &rest[rest.len().min(n + 1)..];
        Some(&rest[..n])
    }
}
