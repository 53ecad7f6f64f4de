// Prints what trapsheet prints for each file of data/, after a line with the file's name.
#![tactic(auto)]

use std::fs::File;
use std::io;

fn run(rt: &HostRuntime, name: &str) -> io::Result<()> {
    let Ok(mut file) = File::open(rt, name) else {
        return println!(rt; "{name} cannot be opened");
    };
    println!(rt; "{name}")?;
    trap_sheet_io::file::print_trap_sheet(&mut file, &mut io::writer(rt))
}

// Edges; frames all 0 and all 1; no input; 12,287 and 12,289 bytes.
fn main(rt: HostRuntime) -> io::Result<()> {
    for name in ["edges", "zeros", "ones", "empty", "short", "long"] {
        run(&rt, name)?;
    }
    Ok(())
}
