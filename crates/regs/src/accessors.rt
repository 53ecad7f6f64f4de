// Access by index to borrowed registers. `reg_of_index` and `with_reg_of_index` are its forms by value.
// Ported from x86_vcpu src/regs/accessors.rs (Copyright 2025 The Axvisor Team, Apache-2.0). Changed: the whole index is judged, and what the Rust panics
// at is refused by 23.
ghost use Rattle.std.specs.Prelude.{◌≡◌};
ghost use Rattle.definitions.specs.Refusals.{numbered, refusal_of};
ghost use Rattle.regs.specs.Registers.{reg_of_index, with_reg_of_index};
ghost use Rattle.regs.specs.Accessors.{index_refusal};

use crate::GeneralRegisters;
use definitions::Refusal;

// 23: index 4, or above 15.
#[tactic(auto, unfolding(crate::specs::Accessors::index_refusal))]
pub fn index_refusal(index: u64) -> Result<(), Refusal>
    ensures { refusal_of result ≡ index_refusal index }
{
    match index {
        4 | 16.. => Err(Refusal::Index),
        _ => Ok(()),
    }
}

#[tactic(auto, using(definitions::proofs::RefusalLaws::some_at, definitions::proofs::RefusalLaws::positive, crate::proofs::Index::register_read, crate::proofs::Index::register_known))]
// The register at an index of borrowed registers: refusal 23.
pub fn get_reg_of_index(regs: &GeneralRegisters, index: u64) -> Result<u64, Refusal>
    ensures { numbered result ≡ reg_of_index regs.now index }
{
    index_refusal(index)?;
    let registers = <[u64; 16]>::from(*regs);
    Ok(registers[index as usize])
}

#[tactic(auto, using(definitions::proofs::RefusalLaws::some_at, definitions::proofs::RefusalLaws::positive, crate::proofs::Index::register_by_refusal, crate::proofs::Index::register_known))]
// Changes the register at an index of borrowed registers: refusal 23, and then they stay as they were.
pub fn set_reg_of_index(regs: &mut GeneralRegisters, index: u64, value: u64) -> Result<(), Refusal>
    ensures { record { refusal = refusal_of result; regs = regs.new } ≡ with_reg_of_index regs.old index value }
{
    index_refusal(index)?;
    let mut registers = <[u64; 16]>::from(*regs);
    registers[index as usize] = value;
    *regs = GeneralRegisters::from(registers);
    Ok(())
}
