//! Why an expression or a PROCEDURE isn't compiled.

ghost use Rattle.std.specs.Prelude.{◌≡◌};
ghost use Rattle.gw_compile.specs.declared.faults.CompileFault.TheVariants as faults;

use gw_text_expressions::Expression;
use std::alloc::AllocError;

/// Why an expression or a PROCEDURE isn't compiled.
#[derive(Clone, Copy)]
pub enum CompileFault<'a> {
    /// What this operand names isn't known: an EQU, an entity, a label, a parameter or a PROCEDURE. No expression has a
    /// random number either.
    Unknown(&'a Expression),
    /// The PROCEDURE that is called here takes another number of arguments.
    Arguments(&'a Expression),
    /// A value is assigned to this name, which is neither an argument of the PROCEDURE nor a temporary declared above.
    Target(&'a String),
    /// There are more instructions, WHILEs or locals than a procedure of an object may have.
    Limit,
    /// Memory ran out.
    Memory,
}

impl From<AllocError> for CompileFault<'_> {
    ghost from_gives = { λ _ fault. fault ≡ faults.Memory };

    fn from(_: AllocError) -> Self {
        CompileFault::Memory
    }
}
