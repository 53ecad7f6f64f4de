// The general-purpose registers by value.
// Ported from x86_vcpu src/regs/mod.rs and src/regs/accessors.rs (Copyright 2025 The Axvisor Team, Apache-2.0). Changed: access by index
// takes and returns the registers by value, judges the whole index and refuses where the Rust panics; narrow names (eax, al, ..) are left out.
#![tactic(auto)]

pub mod accessors;

ghost use Rattle.std.specs.Prelude.{◌≡◌};
ghost use Rattle.definitions.specs.Refusals.{numbered};
ghost use Rattle.regs.specs.Registers.{list_of, of_list, reg_of_index, with_reg_of_index, written_from};

use definitions::Refusal;

// In the order of their encoding in an instruction.
#[repr(C)]
#[derive(Clone, Copy)]
pub struct GeneralRegisters {
    pub rax: u64,
    pub rcx: u64,
    pub rdx: u64,
    pub rbx: u64,
    // The place of RSP, which is the field of the VMCS.
    pub _unused_rsp: u64,
    pub rbp: u64,
    pub rsi: u64,
    pub rdi: u64,
    pub r8: u64,
    pub r9: u64,
    pub r10: u64,
    pub r11: u64,
    pub r12: u64,
    pub r13: u64,
    pub r14: u64,
    pub r15: u64,
}

// The registers in the order of their encoding.
impl From<GeneralRegisters> for [u64; 16] {
    ghost from_gives = { λ g l. l ≡ list_of g };

    fn from(g: GeneralRegisters) -> [u64; 16] {
        [
            g.rax,
            g.rcx,
            g.rdx,
            g.rbx,
            g._unused_rsp,
            g.rbp,
            g.rsi,
            g.rdi,
            g.r8,
            g.r9,
            g.r10,
            g.r11,
            g.r12,
            g.r13,
            g.r14,
            g.r15,
        ]
    }
}

impl From<[u64; 16]> for GeneralRegisters {
    ghost from_gives = { λ l g. g ≡ of_list l };

    fn from(l: [u64; 16]) -> GeneralRegisters {
        GeneralRegisters {
            rax: l[0],
            rcx: l[1],
            rdx: l[2],
            rbx: l[3],
            _unused_rsp: l[4],
            rbp: l[5],
            rsi: l[6],
            rdi: l[7],
            r8: l[8],
            r9: l[9],
            r10: l[10],
            r11: l[11],
            r12: l[12],
            r13: l[13],
            r14: l[14],
            r15: l[15],
        }
    }
}

// The register at an index, by value. Refusal 23: index 4, or above 15.
pub fn reg_of_index(g: GeneralRegisters, index: u64) -> Result<u64, Refusal>
    ensures { numbered result ≡ reg_of_index g index }
{
    accessors::get_reg_of_index(&g, index)
}

// The registers with the one at an index changed, by value. Refusal 23: index 4, or above 15.
pub fn with_reg_of_index(
    g: GeneralRegisters,
    index: u64,
    value: u64,
) -> Result<GeneralRegisters, Refusal>
    ensures { written_from g result ≡ with_reg_of_index g index value }
{
    let mut next = g;
    accessors::set_reg_of_index(&mut next, index, value)?;
    Ok(next)
}
