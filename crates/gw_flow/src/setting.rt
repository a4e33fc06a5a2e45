//! The parameters that blocks set.

ghost use Rattle.std.specs.Prelude.{◌≡◌};
ghost use Rattle.gw_rules.specs.Blocks as model;

use gw_object::Block;
use gw_rules::{Parameter, ParameterKind};

/// A parameter that is set to a number.
fn number_in(parameter: u8) -> Parameter
    ensures { result ≡ model.number_in parameter }
{
    Parameter {
        number: parameter,
        kind: ParameterKind::Num,
    }
}

/// The parameter that the block of this number sets, if it sets one: to a number, or to the return to the block itself.
pub(crate) fn parameter_set(number: u16, block: &Block) -> Option<Parameter>
    ensures { result ≡ model.parameter_set number block.now }
{
    match block {
        Block::Assign(assign) => Some(number_in(assign.parameter)),
        Block::TransferToSubroutine(call) => Some(Parameter {
            number: call.parameter,
            kind: ParameterKind::RetTo(number),
        }),
        Block::Mark(parameter) => parameter.map(number_in),
        Block::Plus(plus) => plus.parameter.map(number_in),
        _ => None,
    }
}
