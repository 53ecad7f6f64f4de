// Prints the manual's tables as the core has them: for each vector its interruption type, whether it carries an error code and whether its
// type is soft; then each encoding of the table that a read accepts, with its kind, its width in bits and its place; how many encodings a read accepts; and the exit reasons that have a name.
#![tactic(auto)]

use std::io;

fn print_vector(rt: &impl Print, vector: u8) -> io::Result<()> {
    let int_type = definitions::from_vector(vector);
    let number = u32::from(int_type);
    let coded = u8::from(definitions::vector_has_error_code(vector));
    let soft = u8::from(definitions::is_soft(int_type));
    println!(rt; "{vector} {number} {coded} {soft}")
}

fn print_vectors(rt: &impl Print) -> io::Result<()> {
    for vector in 0..=255 {
        print_vector(rt, vector)?;
    }
    Ok(())
}

fn is_field(encoding: u64) -> bool {
    let session = vcpu_session::new();
    vmcs::vmcs_read(session.vmcs, encoding).is_ok()
}

// An encoding of the table: its kind, its width in bits, and the place of its field among those of that width.
fn print_encoding(rt: &impl Print, encoding: u64, place: usize) -> io::Result<()> {
    let kind = (encoding >> 10) % 4;
    let width = vmcs::width_of(encoding);
    println!(rt; "{encoding:04x} {kind} {width} {place}")
}

// The encodings of the table that a read accepts.
fn print_table(rt: &impl Print) -> io::Result<()> {
    let encodings = vmcs::table::table();
    let places = vmcs::table::places();
    for (encoding, place) in encodings.iter().zip(&places) {
        if is_field(*encoding) {
            print_encoding(rt, *encoding, *place)?;
        }
    }
    Ok(())
}

// How many numbers below 0x8000 a read accepts.
fn print_accepted(rt: &impl Print) -> io::Result<()> {
    let accepted = (0..0x8000).filter(|encoding| is_field(*encoding)).count();
    println!(rt; "{accepted} encodings are read")
}

// The basic exit reasons that have a name.
fn print_reasons(rt: &impl Print) -> io::Result<()> {
    for reason in definitions::exit_reason::exit_reasons() {
        println!(rt; "reason {reason}")?;
    }
    Ok(())
}

fn main(rt: HostRuntime) -> io::Result<()> {
    print_vectors(&rt)?;
    print_table(&rt)?;
    print_accepted(&rt)?;
    print_reasons(&rt)
}
