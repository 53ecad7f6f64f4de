// The trials: thin calls of `trials`, which has the bodies and says what they answer.
ghost use Rattle.std.specs.Prelude.{◌≡◌};
ghost use Rattle.call_specs.specs.Calls.{reads, writes, both};
ghost use Rattle.trials.specs.Trial.{outcome};
ghost use Rattle.trials.specs.Trials.{try_ports, try_msr, ReportTried, EntryTried};

use definitions::refusal_of;
use structs::Access;

// What vcpu_exit_report would do, shown in a second record: refusals 2, 25, 1, 14, 15, 16, 18, 20, 19, 21, 17, 8.
pub fn vcpu_try_exit_report(
    bytes: &[u8],
    shown: &mut [u8],
    block: &[u8],
    answer: &mut [u64; 8],
) -> u32
    ensures { ReportTried bytes.now shown.old block.now answer.old result shown.new answer.new }
{
    refusal_of(trials::try_exit_report(bytes, shown, block, answer))
}

// What vcpu_entry would do, shown in a second record: refusals 2, 25, 1, 22.
pub fn vcpu_try_entry(
    bytes: &[u8],
    shown: &mut [u8],
    stack: u64,
    resumed: &mut u8,
    injection: &mut u8,
) -> u32
    ensures { EntryTried stack bytes.now shown.old resumed.old injection.old result shown.new resumed.new injection.new }
{
    refusal_of(trials::try_entry(bytes, shown, stack, resumed, injection))
}

// What vcpu_set_io_intercept_of_range would do, shown in a second A and a second B: refusals 2, 25, 10.
pub fn vcpu_try_io_intercept_of_range(
    a: &[u8],
    b: &[u8],
    shown_a: &mut [u8],
    shown_b: &mut [u8],
    port_base: u32,
    count: u32,
    intercept: u8,
) -> u32
    ensures { outcome result (record { a = shown_a.new; b = shown_b.new }) tt ≡ try_ports port_base count intercept (record { a = a.now; b = b.now }) (record { a = shown_a.old; b = shown_b.old }) tt }
{
    let tried = trials::try_io_intercept_of_range(
        a, b, shown_a, shown_b, port_base, count, intercept,
    );
    refusal_of(tried)
}

// What vcpu_set_read_intercept would do, shown in a second MSR frame: refusals 2, 25, 11.
pub fn vcpu_try_read_intercept(frame: &[u8], shown: &mut [u8], msr: u32, intercept: u8) -> u32
    ensures { outcome result shown.new tt ≡ try_msr reads msr intercept frame.now shown.old tt }
{
    refusal_of(trials::try_msr_intercepts(frame, shown, &[Access::Read], msr, intercept))
}

// What vcpu_set_write_intercept would do, shown in a second MSR frame: refusals 2, 25, 11.
pub fn vcpu_try_write_intercept(frame: &[u8], shown: &mut [u8], msr: u32, intercept: u8) -> u32
    ensures { outcome result shown.new tt ≡ try_msr writes msr intercept frame.now shown.old tt }
{
    refusal_of(trials::try_msr_intercepts(frame, shown, &[Access::Write], msr, intercept))
}

// What vcpu_set_msr_intercept_of_range would do, shown in a second MSR frame: refusals 2, 25, 11.
pub fn vcpu_try_msr_intercept_of_range(
    frame: &[u8],
    shown: &mut [u8],
    msr: u32,
    intercept: u8,
) -> u32
    ensures { outcome result shown.new tt ≡ try_msr both msr intercept frame.now shown.old tt }
{
    refusal_of(trials::try_msr_intercepts(
        frame,
        shown,
        &[Access::Read, Access::Write],
        msr,
        intercept,
    ))
}
