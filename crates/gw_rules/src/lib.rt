//! What operands and PLUS code come to, what the verifier checks of an object, and the accepted
//! object's type.
//!
//! It promises the laws of what passes: PLUS code never gets stuck, and a `Verified` object breaks
//! no check. It finds out nothing, and has no evaluator: the crates above do both. Of a job's state
//! it knows what an environment lends (docs/plus-code.md).
#![tactic(auto)]

mod asking;
mod chain_rows;
mod checks;
mod edges;
mod ends;
mod entities;
mod evaluation;
pub mod flow_codes;
pub mod kinds_codes;
pub mod laws;
pub mod plus_codes;
mod results;
mod set_parameters;
mod slopes;
mod verified;
mod ways;
mod weights;
pub mod weights_codes;

pub use asking::{Asked, asks_for, parameters_asked, procedure_at};
pub use chain_rows::{chain_place, chain_row};
pub use checks::check;
pub use edges::{FlowEdge, Target};
pub use ends::PlusEnd;
pub use entities::{EntityKind, Named, needs};
pub use evaluation::{
    Operands, argument_in, as_operand, evaluation_operands, is_drawn, operand_at, operand_of,
    source_of, values,
};
pub use results::operand_value;
pub use set_parameters::{Parameter, ParameterKind};
pub use slopes::{Treatment, above, changed_parameter, slope_at, treats};
pub use verified::Verified;
pub use ways::{
    Exit, Way, Who, exits, is_call, is_used, leads_to, other_way, returns_to, takes_time,
};
pub use weights::{chain_weight, weight_at};
