// The exit report, exported.
ghost use Rattle.call_specs.specs.ReportCall.{ReportCalled};

// Takes what an exit reports and answers what the host is to do: refusals 2, 1, 14, 15, 16, 18, 20, 19, 21, 17, 8.
#[unsafe(no_mangle)]
pub extern "C" fn vcpu_exit_report(bytes: &mut [u8], block: &[u8], answer: &mut [u64; 8]) -> u32
    ensures { ReportCalled bytes.old block.now answer.old result bytes.new answer.new }
{
    x86_vcpu::report::vcpu_exit_report(bytes, block, answer)
}
