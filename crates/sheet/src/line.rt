// One line: read, and answered.
ghost use Rattle.std.specs.Prelude.{◌≡◌, ◌+◌, ◌≤◌, length};
ghost use Rattle.text.specs.Writing.{Room, Puts};
ghost use Rattle.definitions.specs.Refusals.{numbered};
ghost use Rattle.sheet.specs.Line.{only_letters, word_at, words_from, case_of, answer_text, printed_line};

use definitions::Refusal;
use text::hex;
use text::writer::Writer;
use vmcs::controls::Pair;

// Five words after a name of so many bytes.
#[derive(Drop)]
pub struct Words {
    name: usize,
    allowed0: u32,
    allowed1: u32,
    old: u32,
    set: u32,
    clear: u32,
}

fn only_letters(s: &[u8]) -> bool
    ensures { result ≡ only_letters s.now }
{
    s.iter().all(|b| b.is_ascii_lowercase())
}

// The word at a place: a tab and eight digits.
#[tactic(auto, unfolding(crate::specs::Line::word_at))]
fn word_at(line: &[u8], at: usize) -> Option<u32>
    requires { at + 9 ≤ length line.now }
    ensures { result ≡ word_at line.now at }
{
    if line[at] != b'\t' {
        return None;
    }
    hex::number(&line[at + 1..at + 9])
}

// The five words after a name of n bytes.
#[tactic(auto, unfolding(crate::specs::Line::words_from, text::specs::Hex::and_then))]
fn words_from(line: &[u8], n: usize) -> Option<Words>
    requires { n + 45 ≤ length line.now }
    ensures { result ≡ words_from line.now n }
{
    Some(Words {
        name: n,
        allowed0: word_at(line, n)?,
        allowed1: word_at(line, n + 9)?,
        old: word_at(line, n + 18)?,
        set: word_at(line, n + 27)?,
        clear: word_at(line, n + 36)?,
    })
}

// The words take the last 45 bytes, nine each, and the name is what stands before them.
#[tactic(auto, unfolding(crate::specs::Line::case_of))]
fn read(line: &[u8]) -> Option<Words>
    ensures { result ≡ case_of line.now }
{
    if line.len() < 46 {
        return None;
    }
    if 61 < line.len() {
        return None;
    }
    let n = line.len() - 45;
    if !only_letters(&line[..n]) {
        return None;
    }
    words_from(line, n)
}

// Puts an answer.
fn put_answer(answer: Result<u32, Refusal>, output: &mut Writer)
    requires { Room (answer_text (numbered answer)) output.old }
    ensures { Puts (answer_text (numbered answer)) output.old output.new }
{
    match answer {
        Ok(w) => {
            output.put(b"\t");
            output.put(&hex::digits(w));
            output.put(b"\n");
        }
        Err(refusal) => {
            output.put(b"\trefused ");
            output.put(&[b'0' + (u32::from(refusal) % 10) as u8, b'\n']);
        }
    }
}

// Puts what is printed for a line.
pub fn put_line(line: &[u8], output: &mut Writer)
    requires { Room (printed_line line.now) output.old }
    ensures { Puts (printed_line line.now) output.old output.new }
{
    match read(line) {
        Some(words) => {
            output.put(&line[..words.name]);
            let pair = Pair {
                allowed0: words.allowed0,
                allowed1: words.allowed1,
            };
            let answer = vmcs::controls::set_control(pair, words.old, words.set, words.clear);
            put_answer(answer, output);
        }
        None => output.put(b"-\tbad\n"),
    }
}
