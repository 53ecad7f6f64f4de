// The refusals of a call (document 01, "The operations and their numbers"), named as in include/x86_vcpu.h. 0 is an accepted call.
ghost use Rattle.std.specs.Prelude.{◌≡◌};
ghost use Rattle.definitions.specs.Refusals.{number, refusal_of, yes_no};

#[derive(Clone, Copy, Debug, PartialEq, Eq, Hash)]
pub enum Refusal {
    // The call is not allowed in the session's phase.
    Phase = 1,

    // A lent length is wrong, or the bytes are no record, or a yes/no byte is neither 0 nor 1.
    Bytes = 2,

    // No field has this encoding.
    Encoding = 3,

    // The field is read-only.
    ReadOnly = 4,

    // The value is wider than the field.
    Width = 5,

    // A bit must be 1 and may not be: allowed-0 outside allowed-1, fixed-0 outside fixed-1.
    Pair = 6,

    // A bit is to be both set and cleared.
    SetAndClear = 7,

    // A bit to be set is not in allowed-1.
    Set = 8,

    // A bit to be cleared is in allowed-0.
    Clear = 9,

    // The last port is above 65,535.
    Port = 10,

    // The MSR is in neither range of the bitmap.
    Msr = 11,

    // The vector is 0 or above 255.
    Vector = 12,

    // 64 events wait.
    Full = 13,

    // The exit reason is not one that a report may have.
    Reason = 14,

    // A bit of CR0 or CR4 under its guest/host mask differs from the session's.
    OwnedBits = 15,

    // The interruption information of an external interrupt is not valid, or has a reserved type.
    Interrupt = 16,

    // A sum passes 2⁶⁴ − 1.
    Sum = 17,

    // A control-register access other than a move to CR0 or CR4.
    CrAccess = 18,

    // XSETBV of a value that XCR0 may not have.
    Xcr0 = 19,

    // XSETBV of another register than XCR0.
    Xcr = 20,

    // An APIC access.
    ApicAccess = 21,

    // The entry count is 2³² − 1.
    Count = 22,

    // The register's index is 4 or above 15.
    Index = 23,

    // The output is shorter than the sheet.
    Room = 24,

    // A trial's second buffer has another length than the first.
    Shown = 25,

    // An entry of the guest's page tables lies past the end of the memory lent.
    Memory = 26,
}

impl From<Refusal> for u32 {
    ghost from_gives = { λ refusal n. n ≡ number refusal };

    fn from(refusal: Refusal) -> u32 {
        refusal as u32
    }
}

// The number that C is given: 0 where the call is accepted, else that of the refusal.
pub fn refusal_of(answer: Result<(), Refusal>) -> u32
    ensures { result ≡ refusal_of answer }
{
    match answer {
        Ok(()) => 0,
        Err(refusal) => u32::from(refusal),
    }
}

// A yes/no byte of C: 0 is no, 1 is yes, and 2 refuses any other.
pub fn yes_no(byte: u8) -> Result<bool, Refusal>
    ensures { result ≡ yes_no byte }
{
    match byte {
        0 => Ok(false),
        1 => Ok(true),
        _ => Err(Refusal::Bytes),
    }
}
