// Prints the edges of documents 01 and 02 of the calls on a session, as the exported functions answer them: records, events, entries and reports. The lines are as in the program edges, and
// tools/edges.py says what must be printed.
#![tactic(auto)]

mod events;
mod reports;
mod sessions;

use host_calls::HeldSession;
use replay::answered;
use std::io;
use x86_vcpu::readings::vcpu_get_counts;

// Where a session stands, how many events wait, its entries, and those that held an event.
#[derive(Clone, Copy)]
struct Counts {
    phase: u8,
    launched: u8,
    waiting: u8,
    entries: u32,
    held: u32,
}

fn counts_of(session: &HeldSession) -> Result<Counts, u32> {
    let mut phase: u8 = 0;
    let mut launched: u8 = 0;
    let mut waiting: u8 = 0;
    let mut entries: u32 = 0;
    let mut held: u32 = 0;
    let refusal = vcpu_get_counts(
        &session.bytes,
        &mut phase,
        &mut launched,
        &mut waiting,
        &mut entries,
        &mut held,
    );
    answered(
        refusal,
        Counts {
            phase,
            launched,
            waiting,
            entries,
            held,
        },
    )
}

fn main(rt: HostRuntime) -> io::Result<()> {
    sessions::records(&rt)?;
    sessions::queued(&rt)?;
    sessions::injected(&rt)?;
    sessions::entries(&rt)?;
    events::events(&rt)?;
    sessions::apic_values(&rt)?;
    reports::reasons(&rt)?;
    reports::interruptions(&rt)?;
    reports::qualifications(&rt)?;
    reports::masks(&rt)?;
    reports::moves_to_cr0(&rt)
}
