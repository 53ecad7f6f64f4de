// What a host lends: the intercept frames, the block of a report, and the record of a session, on which it makes the calls.
#![tactic(auto)]

ghost use Rattle.std.specs.Prelude.{◌≡◌, set, replicate, IfOk};
ghost use Rattle.std.proofs.lemmas.List.Edits.{sets};
ghost use Rattle.bits.specs.LittleEndian.{bytes_of};
ghost use Rattle.record.specs.Record as Record;
ghost use Rattle.blocks.specs.ReportLayout as Layout;
ghost use Rattle.vcpu_events.specs.Access.{write_field, set_register};
ghost use Rattle.call_specs.specs.Reads.{read_field, get_reg};
ghost use Rattle.call_specs.specs.Records.{Called, entry_call};
ghost use Rattle.call_specs.specs.ReportCall.{report_call};
ghost use Rattle.host_calls.specs.Answers.{number_of, of_reading};

use blocks::report::Layout;
use record::Record;
use record::words::Stored;
use replay::answered;
use structs::FRAME_SIZE;
use x86_vcpu::readings::{vcpu_get_reg_of_index, vcpu_read_field};
use x86_vcpu::report::vcpu_exit_report;
use x86_vcpu::session::{vcpu_entry, vcpu_set_reg_of_index, vcpu_write_field};

// Frames A and B of the ports, and the frame of the MSRs.
#[derive(Drop)]
pub struct Frames {
    pub a: [u8; FRAME_SIZE],
    pub b: [u8; FRAME_SIZE],
    pub msr: [u8; FRAME_SIZE],
}

impl Frames {
    // Frames that intercept nothing.
    pub fn new() -> Self
        ensures a { result.a ≡ replicate 4096 0 }
        ensures b { result.b ≡ replicate 4096 0 }
        ensures msr { result.msr ≡ replicate 4096 0 }
    {
        Frames {
            a: [0; FRAME_SIZE],
            b: [0; FRAME_SIZE],
            msr: [0; FRAME_SIZE],
        }
    }
}

// The block of a report with this reason, and 0 elsewhere.
pub fn report_block(reason: u32) -> [u8; Layout::LENGTH]
    ensures { result ≡ sets (replicate Layout.LENGTH 0) Layout.REASON (bytes_of 4 reason) }
{
    let mut block = [0u8; Layout::LENGTH];
    u32::put(&mut block, Layout::REASON, reason);
    block
}

// What an entry answers beside its number: whether it resumed, and what it did with the front of the queue.
// The two bytes as C is given them: the programs print them.
#[derive(Clone, Copy)]
pub struct Entry {
    pub resumed: u8,
    pub injection: u8,
}

// A session, as the record that the host holds. A call answers its results, or the number of its refusal.
#[derive(Drop)]
pub struct HeldSession {
    pub bytes: [u8; Record::LENGTH],
}

impl HeldSession {
    // A new session, whose record is zeros, in a phase.
    pub fn in_phase(phase: u8) -> Self
        ensures { result.bytes ≡ set (replicate Record.LENGTH 0) Record.PHASE phase }
    {
        let mut bytes = [0; Record::LENGTH];
        bytes[Record::PHASE] = phase;
        HeldSession { bytes }
    }

    // A field: the same whether the variable that is lent to the call held 0 or 1.
    pub fn read_field(&self, encoding: u64) -> Result<u64, u32>
        ensures value { result ≡ of_reading (read_field self.now.bytes encoding 0) }
        ensures over_one { result ≡ of_reading (read_field self.now.bytes encoding 1) }
    {
        // No field is 1 in a new session: a result that is not written shows.
        let mut value: u64 = 1;
        let refusal = vcpu_read_field(&self.bytes, encoding, &mut value);
        answered(refusal, value)
    }

    pub fn read_register(&self, index: u64) -> Result<u64, u32>
        ensures { result ≡ of_reading (get_reg self.now.bytes index 0) }
    {
        let mut value: u64 = 0;
        let refusal = vcpu_get_reg_of_index(&self.bytes, index, &mut value);
        answered(refusal, value)
    }

    pub fn write_field(&mut self, encoding: u64, value: u64) -> Result<(), u32>
        ensures { Called (λ s. write_field s encoding value) self.old.bytes (number_of result) self.new.bytes }
    {
        let refusal = vcpu_write_field(&mut self.bytes, encoding, value);
        answered(refusal, ())
    }

    pub fn write_register(&mut self, index: u64, value: u64) -> Result<(), u32>
        ensures { Called (λ s. set_register s index value) self.old.bytes (number_of result) self.new.bytes }
    {
        let refusal = vcpu_set_reg_of_index(&mut self.bytes, index, value);
        answered(refusal, ())
    }

    // Enters, with the host's stack at 0.
    pub fn enter(&mut self) -> Result<Entry, u32>
        ensures number { number_of result ≡ (entry_call 0 self.old.bytes 0 0).refusal }
        ensures left { self.new.bytes ≡ (entry_call 0 self.old.bytes 0 0).bytes }
        ensures resumed { IfOk result (λ e. e.resumed ≡ (entry_call 0 self.old.bytes 0 0).resumed) }
        ensures injection { IfOk result (λ e. e.injection ≡ (entry_call 0 self.old.bytes 0 0).injection) }
    {
        let mut resumed: u8 = 0;
        let mut injection: u8 = 0;
        let refusal = vcpu_entry(&mut self.bytes, 0, &mut resumed, &mut injection);
        answered(refusal, Entry { resumed, injection })
    }

    // Reports an exit: the words of the answer.
    pub fn report(&mut self, block: &[u8]) -> Result<[u64; 8], u32>
        ensures number { number_of result ≡ (report_call self.old.bytes block.now (replicate 8 0)).refusal }
        ensures left { self.new.bytes ≡ (report_call self.old.bytes block.now (replicate 8 0)).bytes }
        ensures answer { IfOk result (λ words. words ≡ (report_call self.old.bytes block.now (replicate 8 0)).answer) }
    {
        let mut answer = [0u64; 8];
        let refusal = vcpu_exit_report(&mut self.bytes, block, &mut answer);
        answered(refusal, answer)
    }
}
