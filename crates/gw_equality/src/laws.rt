//! `==` tells parts of objects apart, and jobs: each law is the contract of a function that does nothing.

ghost use Rattle.gw_equality.specs.Same.{
  TellsApart,
  same_operand,
  same_block,
  same_instruction,
  same_procedure,
  same_entity,
  same_state,
  same_parts,
};
ghost use Rattle.gw_equality.specs.Jobs.{same_job};

/// `==` of two operands, and of two blocks, answers true exactly where they are equal.
#[tactic(auto, using(crate::proofs::Blocks::operand_apart, crate::proofs::Blocks::block_apart))]
pub fn blocks_are_told_apart()
    ensures operands { TellsApart same_operand }
    ensures blocks { TellsApart same_block }
{}

/// `==` of two instructions, and of two procedures, answers true exactly where they are equal.
#[tactic(auto, using(crate::proofs::Procedures::instruction_apart, crate::proofs::Procedures::procedure_apart))]
pub fn procedures_are_told_apart()
    ensures instructions { TellsApart same_instruction }
    ensures procedures { TellsApart same_procedure }
{}

/// `==` of two entities answers true exactly where they are equal.
#[tactic(auto, using(crate::proofs::Objects::entity_apart))]
pub fn entities_are_told_apart()
    ensures { TellsApart same_entity }
{}

/// `==` of two rows of the state table answers true exactly where they are equal.
#[tactic(auto, using(crate::proofs::Objects::state_apart))]
pub fn states_are_told_apart()
    ensures { TellsApart same_state }
{}

/// `==` of the parts of two objects answers true exactly where they are equal.
#[tactic(auto, using(crate::proofs::Objects::parts_apart))]
pub fn parts_are_told_apart()
    ensures { TellsApart same_parts }
{}

/// Two jobs are the same, by equal parts of the object, the same seeds, count and budget, exactly where they are equal.
#[tactic(auto, using(crate::proofs::Jobs::job_apart))]
pub fn jobs_are_told_apart()
    ensures { TellsApart same_job }
{}
