// Setup, exported.
ghost use Rattle.call_specs.specs.SetupCall.{SetupCalled};

// Sets a fresh session up and adds its intercepts to the frames: refusals 2, 1, 6, 8, 9. The frames' lengths are tested first, so their edits are not refused.
#[unsafe(no_mangle)]
pub extern "C" fn vcpu_setup(
    bytes: &mut [u8],
    block: &[u8],
    a: &mut [u8],
    b: &mut [u8],
    msr: &mut [u8],
) -> u32
    ensures { SetupCalled bytes.old block.now a.old b.old msr.old result bytes.new a.new b.new msr.new }
{
    x86_vcpu::setup::vcpu_setup(bytes, block, a, b, msr)
}
