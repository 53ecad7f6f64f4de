// The calls that read a session's record, exported.
ghost use Rattle.std.specs.Prelude.{◌≡◌};
ghost use Rattle.call_specs.specs.Reads.{read_field, get_reg, get_counts, get_xcr0, mode_call, address_call, walk_call, page_walk_call};

// A field by its encoding: refusals 2, 3.
#[unsafe(no_mangle)]
pub extern "C" fn vcpu_read_field(bytes: &[u8], encoding: u64, value: &mut u64) -> u32
    ensures { record { refusal = result; value = value.new } ≡ read_field bytes.now encoding value.old }
{
    x86_vcpu::readings::vcpu_read_field(bytes, encoding, value)
}

// A register by its index: refusals 2, 23.
#[unsafe(no_mangle)]
pub extern "C" fn vcpu_get_reg_of_index(bytes: &[u8], index: u64, value: &mut u64) -> u32
    ensures { record { refusal = result; value = value.new } ≡ get_reg bytes.now index value.old }
{
    x86_vcpu::readings::vcpu_get_reg_of_index(bytes, index, value)
}

// Where a session stands, how many events wait, its entries, and those that held an event: refusal 2.
#[unsafe(no_mangle)]
pub extern "C" fn vcpu_get_counts(
    bytes: &[u8],
    phase: &mut u8,
    launched: &mut u8,
    waiting: &mut u8,
    entries: &mut u32,
    held: &mut u32,
) -> u32
    ensures { record { refusal = result; phase = phase.new; launched = launched.new; waiting = waiting.new; entries = entries.new; held = held.new } ≡ get_counts bytes.now phase.old launched.old waiting.old entries.old held.old }
{
    x86_vcpu::readings::vcpu_get_counts(bytes, phase, launched, waiting, entries, held)
}

// XCR0, as setup or the last XSETBV left it: refusal 2.
#[unsafe(no_mangle)]
pub extern "C" fn vcpu_get_xcr0(bytes: &[u8], xcr0: &mut u64) -> u32
    ensures { record { refusal = result; value = xcr0.new } ≡ get_xcr0 bytes.now xcr0.old }
{
    x86_vcpu::readings::vcpu_get_xcr0(bytes, xcr0)
}

// The mode of the guest's CPU, with the host's EFER: refusal 2.
#[unsafe(no_mangle)]
pub extern "C" fn vcpu_get_cpu_mode(bytes: &[u8], efer: u64, mode: &mut u32) -> u32
    ensures { record { refusal = result; value = mode.new } ≡ mode_call bytes.now efer mode.old }
{
    x86_vcpu::readings::vcpu_get_cpu_mode(bytes, efer, mode)
}

// A guest address with the base of CS added, but in 64-bit mode none; the mode is by the host's EFER: refusals 2, 17.
#[unsafe(no_mangle)]
pub extern "C" fn vcpu_gla2gva(bytes: &[u8], efer: u64, address: u64, linear: &mut u64) -> u32
    ensures { record { refusal = result; value = linear.new } ≡ address_call bytes.now efer address linear.old }
{
    x86_vcpu::readings::vcpu_gla2gva(bytes, efer, address, linear)
}

// What a walk of the guest's page tables starts from: refusal 2.
#[unsafe(no_mangle)]
pub extern "C" fn vcpu_get_ptw_info(
    bytes: &[u8],
    top_entry: &mut u64,
    level: &mut u8,
    width: &mut u8,
    flags: &mut u32,
) -> u32
    ensures { record { refusal = result; top = top_entry.new; level = level.new; width = width.new; flags = flags.new } ≡ walk_call bytes.now top_entry.old level.old width.old flags.old }
{
    x86_vcpu::readings::vcpu_get_ptw_info(bytes, top_entry, level, width, flags)
}

// A guest-virtual address walked through the guest's page tables, which memory holds from guest-physical address 0: refusals 2, 26.
#[unsafe(no_mangle)]
pub extern "C" fn vcpu_page_walk(
    bytes: &[u8],
    memory: &[u8],
    address: u64,
    kind: u8,
    answer: &mut [u64; 3],
) -> u32
    ensures { record { refusal = result; answer = answer.new } ≡ page_walk_call bytes.now memory.now address kind answer.old }
{
    x86_vcpu::readings::vcpu_page_walk(bytes, memory, address, kind, answer)
}
