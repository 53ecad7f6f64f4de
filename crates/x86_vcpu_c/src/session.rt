// The calls that change a session's record, exported.
ghost use Rattle.std.specs.Prelude.{◌≡◌};
ghost use Rattle.vcpu_events.specs.Queue.{inject_interrupt};
ghost use Rattle.vcpu_events.specs.Access.{write_field, set_register, apic_value};
ghost use Rattle.call_specs.specs.Records.{Called, queue_step, EntryCalled, new_call};

// Queues an event last: refusals 2, 1, 13.
#[unsafe(no_mangle)]
pub extern "C" fn vcpu_queue_event(bytes: &mut [u8], vector: u8, coded: u8, code: u32) -> u32
    ensures { Called (queue_step vector coded code) bytes.old result bytes.new }
{
    x86_vcpu::session::vcpu_queue_event(bytes, vector, coded, code)
}

// Queues an interrupt by its vector: refusals 2, 1, 12, 13.
#[unsafe(no_mangle)]
pub extern "C" fn vcpu_inject_interrupt(bytes: &mut [u8], vector: u64) -> u32
    ensures { Called (λ s. inject_interrupt s vector) bytes.old result bytes.new }
{
    x86_vcpu::session::vcpu_inject_interrupt(bytes, vector)
}

// Writes a field by its encoding: refusals 2, 3, 4, 5.
#[unsafe(no_mangle)]
pub extern "C" fn vcpu_write_field(bytes: &mut [u8], encoding: u64, value: u64) -> u32
    ensures { Called (λ s. write_field s encoding value) bytes.old result bytes.new }
{
    x86_vcpu::session::vcpu_write_field(bytes, encoding, value)
}

// Writes a register by its index: refusals 2, 23.
#[unsafe(no_mangle)]
pub extern "C" fn vcpu_set_reg_of_index(bytes: &mut [u8], index: u64, value: u64) -> u32
    ensures { Called (λ s. set_register s index value) bytes.old result bytes.new }
{
    x86_vcpu::session::vcpu_set_reg_of_index(bytes, index, value)
}

// The value of the APIC register that the guest reads: refusals 2, 1.
#[unsafe(no_mangle)]
pub extern "C" fn vcpu_apic_value(bytes: &mut [u8], value: u64) -> u32
    ensures { Called (λ s. apic_value s value) bytes.old result bytes.new }
{
    x86_vcpu::session::vcpu_apic_value(bytes, value)
}

// A launch or a resume: refusals 2, 1, 22.
#[unsafe(no_mangle)]
pub extern "C" fn vcpu_entry(
    bytes: &mut [u8],
    stack: u64,
    resumed: &mut u8,
    injection: &mut u8,
) -> u32
    ensures { EntryCalled stack bytes.old resumed.old injection.old result bytes.new resumed.new injection.new }
{
    x86_vcpu::session::vcpu_entry(bytes, stack, resumed, injection)
}

// A new session, and its frames cleared: refusal 2 by the lengths alone, whatever the buffers hold.
#[unsafe(no_mangle)]
pub extern "C" fn vcpu_new(bytes: &mut [u8], a: &mut [u8], b: &mut [u8], msr: &mut [u8]) -> u32
    ensures { record { refusal = result; bytes = bytes.new; a = a.new; b = b.new; msr = msr.new } ≡ new_call bytes.old a.old b.old msr.old }
{
    x86_vcpu::session::vcpu_new(bytes, a, b, msr)
}
