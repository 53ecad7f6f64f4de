// Prints what casesheet prints for each file of data/, after a line with the file's name.
#![tactic(auto)]

use std::fs::File;
use std::io;

fn run(rt: &HostRuntime, name: &str) -> io::Result<()> {
    let Ok(mut file) = File::open(rt, name) else {
        return println!(rt; "{name} cannot be opened");
    };
    println!(rt; "{name}")?;
    sheet::file::print_sheet(&mut file, &mut io::writer(rt))
}

// Edge lines; no input; 65,536 and 65,537 bytes; the oracle's list.
fn main(rt: HostRuntime) -> io::Result<()> {
    for name in ["edges", "empty", "full", "long", "list"] {
        run(&rt, name)?;
    }
    Ok(())
}
