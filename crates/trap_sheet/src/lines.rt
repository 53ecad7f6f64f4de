// The lines of the sheet: 40 columns and a line feed.
ghost use Rattle.text.specs.Writing.{Room, Puts};
ghost use Rattle.trap_sheet.specs.Sheet.{item_text, number_text, total_line, run_line};
ghost use Rattle.trap_sheet.specs.Search.{run_lines};
ghost use Rattle.trap_sheet.specs.Left.{run_of, left};

use crate::runs::{Run, Runs};
use text::writer::Writer;
use text::{decimal, hex};

// An item in 8 hexadecimal digits after two blanks.
fn put_item(n: u32, output: &mut Writer)
    requires { Room (item_text n) output.old }
    ensures { Puts (item_text n) output.old output.new }
{
    output.put(b"  ");
    output.put(&hex::digits(n));
}

// The last columns: a number right in 14 after two blanks.
fn put_number(n: u64, output: &mut Writer)
    requires { Room (number_text n) output.old }
    ensures { Puts (number_text n) output.old output.new }
{
    output.put(b"  ");
    output.put(&decimal::columns(n));
    output.put(b"\n");
}

// The total line of a kind.
pub fn put_total(kind: &[u8], n: u32, output: &mut Writer)
    requires { Room (total_line kind.now n) output.old }
    ensures { Puts (total_line kind.now n) output.old output.new }
{
    output.put(kind);
    output.put(&[b' '; 20]);
    put_number(n as u64, output);
}

// The line of a run.
fn put_run(kind: &[u8], run: Run, output: &mut Writer)
    requires { Room (run_line kind.now (run_of run)) output.old }
    ensures { Puts (run_line kind.now (run_of run)) output.old output.new }
{
    output.put(kind);
    put_item(run.first, output);
    put_item(run.last, output);
    put_number((run.last - run.first) as u64 + 1, output);
}

// The lines of runs.
pub fn put_runs(kind: &[u8], runs: Runs, output: &mut Writer)
    requires { Room (run_lines kind.now (left runs)) output.old }
    ensures { Puts (run_lines kind.now (left runs.entry)) output.old output.new }
{
    for run in runs {
        put_run(kind, run, output);
    }
}
