// Trials: what a call would answer and leave, shown in second buffers, while the record and the frames that it is given are only read. The number is found
// from the bytes that decide it; only where it is 0 are the first buffers copied, and the copy is changed as the call would change the first. The entry and the report, whose
// calls and trials share their bodies, stand here too.
#![tactic(auto)]

ghost use Rattle.std.specs.Prelude.{◌≡◌, true, ℕ, unwrap_or, option_copied};
ghost use Rattle.definitions.specs.Refusals.{refusal_of};
ghost use Rattle.call_specs.specs.Records.{entry_call, EntryCalled};
ghost use Rattle.call_specs.specs.ReportCall.{report_accepts, ReportCalled};
ghost use Rattle.trials.specs.Trial.{outcome, trial_number};
ghost use Rattle.trials.specs.Trials.{alike_of, try_ports, try_msr, ReportTried, ReportBody, EntryTried};

use definitions::{Refusal, yes_no};
use record_edits::SessionRecord;
use structs::Access;
use vcpu_session::Phase;

// The refusal of a trial, from that of its call: 2, then 25 where the second buffers have other lengths than the first, then the call's others.
#[tactic(auto, using(definitions::proofs::RefusalLaws::not_bytes), unfolding(crate::specs::Trial::trial_number))]
fn trial_refusal(call: Result<(), Refusal>, alike: bool) -> Result<(), Refusal>
    ensures { refusal_of result ≡ trial_number (refusal_of call) alike }
{
    match call {
        Err(Refusal::Bytes) => Err(Refusal::Bytes),
        _ if alike => call,
        _ => Err(Refusal::Shown),
    }
}

// ---- the report

// The record that decides: the first one in a trial, else the one that the call is given.
fn given<'a>(first: Option<&'a [u8]>, bytes: &'a [u8]) -> &'a [u8]
    ensures { result.now ≡ unwrap_or (option_copied first.entry) bytes.now }
{
    match first {
        Some(record) => record,
        None => bytes,
    }
}

// The bytes are a record and a block of a report.
#[tactic(auto, unfolding(call_specs::specs::ReportCall::report_accepts))]
fn report_accepts(bytes: &[u8], block: &[u8]) -> bool
    ensures { result ≡ report_accepts bytes.now block.now }
{
    let session = record::accepts(bytes);
    let report = blocks::report::accepts(block);
    session & report
}

// Of a trial: the second buffer has the first one's length.
fn alike(first: Option<&[u8]>, bytes: &[u8]) -> bool
    ensures { result ≡ alike_of (option_copied first.entry) bytes.now }
{
    match first {
        Some(record) => bytes.len() == record.len(),
        None => true,
    }
}

// In a trial, the first record copied to the second buffer.
fn copy_first(first: Option<&[u8]>, bytes: &mut [u8])
    requires { alike_of (option_copied first) bytes.old ≡ true }
    ensures { bytes.new ≡ unwrap_or (option_copied first.entry) bytes.old }
{
    if let Some(record) = first {
        bytes.copy_from_slice(record);
    }
}

// A report, or its trial: one body, since the compiler keeps a decoded report in registers only where a single function has all of it. In a trial `first` is the record
// and `bytes` the second buffer.
fn report_on(
    first: Option<&[u8]>,
    bytes: &mut [u8],
    block: &[u8],
    answer: &mut [u64; 8],
) -> Result<(), Refusal>
    ensures { ReportBody (option_copied first.entry) bytes.old block.now answer.old (refusal_of result) bytes.new answer.new }
{
    let decides = given(first, &bytes[..]);
    if report_accepts(decides, block) {
        if !alike(first, &bytes[..]) {
            return Err(Refusal::Shown);
        }
        // `report_refusal` finds 1 too; here the block is not decoded for it.
        if record::phase_at(decides) != Phase::RUNNING {
            return Err(Refusal::Phase);
        }
        let r = blocks::report::report_at(block);
        report_edits::report_refusal(decides, r)?;
        copy_first(first, bytes);
        let what = report_edits::accept(&mut SessionRecord::new(bytes), r);
        *answer = what.into();
        Ok(())
    } else {
        Err(Refusal::Bytes)
    }
}

// Takes what an exit reports and answers what the host is to do: refusals 2, 1, 14, 15, 16, 18, 20, 19, 21, 17, 8.
pub fn exit_report(bytes: &mut [u8], block: &[u8], answer: &mut [u64; 8]) -> Result<(), Refusal>
    ensures { ReportCalled bytes.old block.now answer.old (refusal_of result) bytes.new answer.new }
{
    report_on(None, bytes, block, answer)
}

// What vcpu_exit_report would do: refusals 2, 25, then the report's own.
pub fn try_exit_report(
    bytes: &[u8],
    shown: &mut [u8],
    block: &[u8],
    answer: &mut [u64; 8],
) -> Result<(), Refusal>
    ensures { ReportTried bytes.now shown.old block.now answer.old (refusal_of result) shown.new answer.new }
{
    report_on(Some(bytes), shown, block, answer)
}

// ---- the entry

// The number of an entry, whatever the host's stack, or 0.
fn entry_number(bytes: &[u8]) -> Result<(), Refusal>
    ensures { (stack resumed injection : ℕ) → refusal_of result ≡ (entry_call stack bytes.now resumed injection).refusal }
{
    if record::accepts(bytes) {
        session_edits::entry_refusal(bytes)
    } else {
        Err(Refusal::Bytes)
    }
}

// A launch or a resume: refusals 2, 1, 22.
pub fn entry(
    bytes: &mut [u8],
    stack: u64,
    resumed: &mut u8,
    injection: &mut u8,
) -> Result<(), Refusal>
    ensures { EntryCalled stack bytes.old resumed.old injection.old (refusal_of result) bytes.new resumed.new injection.new }
{
    if record::accepts(bytes) {
        let e = session_edits::enter(&mut SessionRecord::new(bytes), stack)?;
        *resumed = u8::from(e.resumed);
        *injection = u8::from(e.injection);
        Ok(())
    } else {
        Err(Refusal::Bytes)
    }
}

// What vcpu_entry would do: refusals 2, 25, 1, 22.
pub fn try_entry(
    bytes: &[u8],
    shown: &mut [u8],
    stack: u64,
    resumed: &mut u8,
    injection: &mut u8,
) -> Result<(), Refusal>
    ensures { EntryTried stack bytes.now shown.old resumed.old injection.old (refusal_of result) shown.new resumed.new injection.new }
{
    trial_refusal(entry_number(bytes), shown.len() == bytes.len())?;
    shown.copy_from_slice(bytes);
    entry(shown, stack, resumed, injection)
}

// ---- on frames

// What vcpu_set_io_intercept_of_range would do: refusals 2, 25, 10. Both frames are shown, whichever the ports are in.
pub fn try_io_intercept_of_range(
    a: &[u8],
    b: &[u8],
    shown_a: &mut [u8],
    shown_b: &mut [u8],
    port_base: u32,
    count: u32,
    intercept: u8,
) -> Result<(), Refusal>
    ensures { outcome (refusal_of result) (record { a = shown_a.new; b = shown_b.new }) tt ≡ try_ports port_base count intercept (record { a = a.now; b = b.now }) (record { a = shown_a.old; b = shown_b.old }) tt }
{
    let intercept = yes_no(intercept)?;
    let call = structs::port_refusal(a.len(), b.len(), port_base, count);
    let alike = (shown_a.len() == a.len()) & (shown_b.len() == b.len());
    trial_refusal(call, alike)?;
    shown_a.copy_from_slice(a);
    shown_b.copy_from_slice(b);
    structs::set_intercept_of_range(shown_a, shown_b, port_base, count, intercept)
}

// What an edit of these accesses to one MSR would do (vcpu_set_read_intercept, vcpu_set_write_intercept, vcpu_set_msr_intercept_of_range): refusals 2, 25, 11.
pub fn try_msr_intercepts(
    frame: &[u8],
    shown: &mut [u8],
    accesses: &[Access],
    msr: u32,
    intercept: u8,
) -> Result<(), Refusal>
    ensures { outcome (refusal_of result) shown.new tt ≡ try_msr accesses.now msr intercept frame.now shown.old tt }
{
    let intercept = yes_no(intercept)?;
    let from = msr as usize;
    let call = structs::msr_refusal(frame.len(), from, from + 1);
    trial_refusal(call, shown.len() == frame.len())?;
    shown.copy_from_slice(frame);
    structs::set_msr_intercepts(shown, accesses, msr, 1, intercept)
}
