// Edits of a record in place: one part of its session is changed, and the rest stays as it is.
#![tactic(auto, using(record::proofs::Accepted::whole))]

ghost use Rattle.std.specs.Prelude.{◌≡◌, true, ◌+◌, ◌^◌, ◌<◌, ◌≤◌, length, take, drop};
ghost use Rattle.std.proofs.lemmas.List.Edits.{sets};
ghost use Rattle.bits.specs.LittleEndian.{Below};
ghost use Rattle.regs.specs.Registers.{with_reg};
ghost use Rattle.vmcs.specs.Field.{Word16, Word32, Word64, Natural, width_bits};
ghost use Rattle.vmcs.specs.Fields.{field_at};
ghost use Rattle.vcpu_session.specs.Session.{with_progress, with_regs, with_queue, with_xcr0, in_phase, with_value};
ghost use Rattle.vcpu_events.specs.Queue.{event_of, pushed, popped};
ghost use Rattle.record.specs.Record.{LENGTH};
ghost use Rattle.record.specs.Codec.{accepted_of, with_field};

use record::Record;
use record::words::Stored;
use regs::GeneralRegisters;
use vcpu_events::Event;
use vcpu_session::Progress;

// A record of a session, borrowed: no edit leaves other bytes than a record.
#[derive(Drop)]
pub struct SessionRecord<'a> {
    bytes: &'a mut [u8],
    pub ghost accepted: { accepted_of bytes.now ≡ true },
    pub ghost below: { Below 256 bytes.now },
}

impl<'a> SessionRecord<'a> {
    ghost use Rattle.record_edits.specs.Edited.{session, Edited};

    pub fn new(bytes: &'a mut [u8]) -> SessionRecord<'a>
        requires { accepted_of bytes.old ≡ true }
        ensures value { result.bytes.now ≡ bytes.old }
        ensures same_reference { result.bytes.ghost_name ≡ bytes.entry.ghost_name }
    {
        SessionRecord { bytes }
    }

    // To be read.
    pub fn bytes(&self) -> &[u8]
        ensures value { result.now ≡ self.now.bytes.now }
        ensures length { length result.now ≡ LENGTH }
    {
        &*self.bytes
    }

    // ---- Where a session stands.

    pub fn phase(&self) -> u8
        ensures { result ≡ (session self.now).progress.phase }
    {
        record::phase_at(self.bytes)
    }

    pub fn progress(&self) -> Progress
        ensures { result ≡ (session self.now).progress }
    {
        record::progress_at(self.bytes)
    }

    pub fn waiting(&self) -> u8
        ensures { result ≡ (session self.now).queue.waiting }
    {
        record::waiting_at(self.bytes)
    }

    #[tactic(auto, using(record::proofs::Accepted::whole, crate::proofs::Edits::phase_held))]
    pub fn put_phase(&mut self, phase: u8)
        requires { phase ≤ 4 }
        ensures { Edited self.old self.new (λ s. with_progress s (in_phase s.progress phase)) }
    {
        u8::put(self.bytes, Record::PHASE, phase);
    }

    pub fn put_progress(&mut self, p: Progress)
        requires { (p.phase ≤ 4) × (p.held ≤ p.entries) }
        ensures { Edited self.old self.new (λ s. with_progress s p) }
    {
        let b: &mut [u8] = &mut *self.bytes;
        u8::put(b, Record::PHASE, p.phase);
        bool::put(b, Record::LAUNCHED, p.launched);
        u32::put(b, Record::ENTRIES, p.entries);
        u32::put(b, Record::HELD, p.held);
    }

    // ---- Registers.

    pub fn put_reg(&mut self, index: usize, value: u64)
        requires { index < 16 }
        ensures { Edited self.old self.new (λ s. with_regs s (with_reg s.regs index value)) }
    {
        u64::put(self.bytes, Record::REGS + index * 8, value);
    }

    pub fn put_regs(&mut self, g: GeneralRegisters)
        ensures { Edited self.old self.new (λ s. with_regs s g) }
    {
        GeneralRegisters::put(self.bytes, Record::REGS, g);
    }

    // ---- Fields, at a place of the array of their width.

    fn put_w16(&mut self, place: usize, value: u16)
        requires { place < 17 }
        ensures { Edited self.old self.new (λ s. with_field s (Word16 place) value) }
    {
        u16::put(self.bytes, Record::W16 + place * 2, value);
    }

    pub fn put_w32(&mut self, place: usize, value: u32)
        requires { place < 50 }
        ensures { Edited self.old self.new (λ s. with_field s (Word32 place) value) }
    {
        u32::put(self.bytes, Record::W32 + place * 4, value);
    }

    pub fn put_w64(&mut self, place: usize, value: u64)
        requires { place < 41 }
        ensures { Edited self.old self.new (λ s. with_field s (Word64 place) value) }
    {
        u64::put(self.bytes, Record::W64 + place * 8, value);
    }

    pub fn put_natural(&mut self, place: usize, value: u64)
        requires { place < 46 }
        ensures { Edited self.old self.new (λ s. with_field s (Natural place) value) }
    {
        u64::put(self.bytes, Record::NATURAL + place * 8, value);
    }

    // The field at a place of the table, where the widths stand in the order 16, 64, 32, natural.
    #[tactic(auto, unfolding(vmcs::specs::Fields::field_at))]
    pub fn put_field(&mut self, place: usize, value: u64)
        requires { (place < 154) × (value < 2 ^ width_bits (field_at place)) }
        ensures { Edited self.old self.new (λ s. with_field s (field_at place) value) }
    {
        match place {
            0..17 => self.put_w16(place, value as u16),
            17..58 => self.put_w64(place - 17, value),
            58..108 => self.put_w32(place - 58, value as u32),
            _ => self.put_natural(place - 108, value),
        }
    }

    // ---- XCR0. The supported bits stay.

    pub fn put_xcr0(&mut self, value: u64)
        ensures { Edited self.old self.new (λ s. with_xcr0 s (with_value s.xcr0 value)) }
    {
        u64::put(self.bytes, Record::XCR0, value);
    }

    // ---- The queue of events.

    // An event last. A code that is not given is stored as 0.
    pub fn push_back(&mut self, e: Event)
        requires { (session self.old).queue.waiting < 64 }
        ensures { Edited self.old self.new (λ s. with_queue s (pushed s.queue (event_of e))) }
    {
        let b: &mut [u8] = &mut *self.bytes;
        let waiting = record::waiting_at(b);
        let at = waiting as usize;
        let code = e.code.unwrap_or(0);
        let coded = vcpu_events::with_coded(record::coded_at(b), waiting, e.code.is_some());
        u8::put(b, Record::VECTORS + at, e.vector);
        u64::put(b, Record::CODED, coded);
        u32::put(b, Record::CODES + at * 4, code);
        u8::put(b, Record::WAITING, waiting + 1);
    }

    // The queue without its front: the events behind it moved down, and 0 in the place that they free.
    pub fn pop_front(&mut self)
        ensures { Edited self.old self.new (λ s. with_queue s (popped s.queue)) }
    {
        let b: &mut [u8] = &mut *self.bytes;
        let waiting = record::waiting_at(b);
        let coded = record::coded_at(b);
        let left = waiting.saturating_sub(1);
        let n = left as usize;
        u8::put(b, Record::WAITING, left);
        b.copy_within(
            Record::VECTORS + 1..Record::VECTORS + 1 + n,
            Record::VECTORS,
        );
        u8::put(b, Record::VECTORS + n, 0);
        u64::put(b, Record::CODED, coded / 2);
        b.copy_within(Record::CODES + 4..Record::CODES + 4 + n * 4, Record::CODES);
        u32::put(b, Record::CODES + n * 4, 0);
    }
}
