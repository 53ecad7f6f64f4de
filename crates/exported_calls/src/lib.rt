// What every list of calls comes to is a theorem about the steps of a list (crate `calls`), and what every list of edits of intercepts comes to is one about edits
// (crate `intercepts`). The functions here tie these steps and edits to the exported functions: each calls one of them and ensures its step, so that a contract that
// says less than the step is refused. Nothing calls these.
// Each name that C calls has a function of its own, also where three differ in a constant alone.
#![tactic(auto)]

ghost use Rattle.std.specs.Prelude.{◌≡◌};
ghost use Rattle.calls.specs.Reference.{queue_event, inject_interrupt, apic_value, field_write, register_write};
ghost use Rattle.calls.specs.CallContracts.{Creates, Does, SetsUp, Enters, Reports};
ghost use Rattle.call_specs.specs.Records.{frames_call};
ghost use Rattle.call_specs.specs.SetupCall.{setup_call};
ghost use Rattle.intercepts.specs.Edits.{edited, set_io_intercept_of_range, set_read_intercept, set_write_intercept, set_msr_intercept_of_range};

fn new(bytes: &mut [u8], a: &mut [u8], b: &mut [u8], msr: &mut [u8]) -> u32
    ensures { Creates bytes.old a.old b.old msr.old result bytes.new a.new b.new msr.new }
{
    x86_vcpu::session::vcpu_new(bytes, a, b, msr)
}

fn set_up(bytes: &mut [u8], block: &[u8], a: &mut [u8], b: &mut [u8], msr: &mut [u8]) -> u32
    ensures { SetsUp bytes.old block.now a.old b.old msr.old result bytes.new a.new b.new msr.new }
{
    x86_vcpu::setup::vcpu_setup(bytes, block, a, b, msr)
}

fn queue_event(bytes: &mut [u8], vector: u8, coded: u8, code: u32) -> u32
    ensures { Does bytes.old (queue_event vector coded code) result bytes.new }
{
    x86_vcpu::session::vcpu_queue_event(bytes, vector, coded, code)
}

fn inject_interrupt(bytes: &mut [u8], vector: u64) -> u32
    ensures { Does bytes.old (inject_interrupt vector) result bytes.new }
{
    x86_vcpu::session::vcpu_inject_interrupt(bytes, vector)
}

fn enter(bytes: &mut [u8], stack: u64, resumed: &mut u8, injection: &mut u8) -> u32
    ensures { Enters bytes.old stack resumed.old injection.old result bytes.new resumed.new injection.new }
{
    x86_vcpu::session::vcpu_entry(bytes, stack, resumed, injection)
}

fn exit_report(bytes: &mut [u8], block: &[u8], answer: &mut [u64; 8]) -> u32
    ensures { Reports bytes.old block.now answer.old result bytes.new answer.new }
{
    x86_vcpu::report::vcpu_exit_report(bytes, block, answer)
}

fn apic_value(bytes: &mut [u8], value: u64) -> u32
    ensures { Does bytes.old (apic_value value) result bytes.new }
{
    x86_vcpu::session::vcpu_apic_value(bytes, value)
}

fn write_field(bytes: &mut [u8], encoding: u64, value: u64) -> u32
    ensures { Does bytes.old (field_write encoding value) result bytes.new }
{
    x86_vcpu::session::vcpu_write_field(bytes, encoding, value)
}

fn set_register(bytes: &mut [u8], index: u64, value: u64) -> u32
    ensures { Does bytes.old (register_write index value) result bytes.new }
{
    x86_vcpu::session::vcpu_set_reg_of_index(bytes, index, value)
}

// The frames that setup leaves, on which edits go on.
fn set_up_frames(bytes: &mut [u8], block: &[u8], a: &mut [u8], b: &mut [u8], msr: &mut [u8]) -> u32
    ensures { frames_call result bytes.new a.new b.new msr.new ≡ setup_call bytes.old block.now a.old b.old msr.old }
{
    x86_vcpu::setup::vcpu_setup(bytes, block, a, b, msr)
}

fn set_io_intercept_of_range(
    a: &mut [u8],
    b: &mut [u8],
    msr: &[u8],
    port_base: u32,
    count: u32,
    intercept: u8,
) -> u32
    ensures { record { refusal = result; frames = record { a = a.new; b = b.new; msr = msr.now } } ≡ edited (record { a = a.old; b = b.old; msr = msr.now }) (set_io_intercept_of_range port_base count intercept) }
{
    x86_vcpu::vcpu_set_io_intercept_of_range(a, b, port_base, count, intercept)
}

fn set_read_intercept(a: &[u8], b: &[u8], frame: &mut [u8], msr: u32, intercept: u8) -> u32
    ensures { record { refusal = result; frames = record { a = a.now; b = b.now; msr = frame.new } } ≡ edited (record { a = a.now; b = b.now; msr = frame.old }) (set_read_intercept msr intercept) }
{
    x86_vcpu::vcpu_set_read_intercept(frame, msr, intercept)
}

fn set_write_intercept(a: &[u8], b: &[u8], frame: &mut [u8], msr: u32, intercept: u8) -> u32
    ensures { record { refusal = result; frames = record { a = a.now; b = b.now; msr = frame.new } } ≡ edited (record { a = a.now; b = b.now; msr = frame.old }) (set_write_intercept msr intercept) }
{
    x86_vcpu::vcpu_set_write_intercept(frame, msr, intercept)
}

fn set_msr_intercept_of_range(a: &[u8], b: &[u8], frame: &mut [u8], msr: u32, intercept: u8) -> u32
    ensures { record { refusal = result; frames = record { a = a.now; b = b.now; msr = frame.new } } ≡ edited (record { a = a.now; b = b.now; msr = frame.old }) (set_msr_intercept_of_range msr intercept) }
{
    x86_vcpu::vcpu_set_msr_intercept_of_range(frame, msr, intercept)
}
