// Reads the intercept frames A, B and MSR from standard input, 12,288 bytes, and prints their trap sheet.
#![tactic(auto)]

use std::io;

fn main(rt: HostRuntime) -> io::Result<()> {
    trap_sheet_io::file::print_trap_sheet(&mut rt.reader(), &mut io::writer(&rt))
}
