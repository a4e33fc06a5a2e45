//! The law of what a model text becomes, as the contract of a function that does nothing.

ghost use Rattle.gw_pieces.specs.Pieces.{AllComputeWherePassed};

/// In an object that has the pieces of a text, and of which kinds and PLUS code pass, each expression is computed by a procedure:
/// that of an operand, of a VARIABLE or BVARIABLE, of the argument of a TABLE or a FUNCTION, and of an EQU. In each environment
/// that sets what the procedure needs, it comes to the value of the expression's tree, from left to right, or to its first named
/// end (docs/model-text.md).
#[tactic(auto, using(crate::proofs::Computing::all_compute))]
pub fn expressions_compute()
    ensures { AllComputeWherePassed }
{}
