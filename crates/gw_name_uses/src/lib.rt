//! What the statements of a model text use by name.
//!
//! It promises the uses in the order of the text: the entity that a label declares, operands, and
//! what a PROCEDURE does; inside one its arguments and the temporaries declared above are no uses.
//! What a name stands for is for `gw_names` to say (docs/model-text.md).
#![tactic(auto)]

mod expressions;
mod locals;
mod operands;
mod plus;
mod roles;
mod sites;
mod statements;
mod uses;

pub use expressions::put_uses_of_operand;
pub use plus::put_uses_of_procedure;
pub use sites::{Site, uses_in};
pub use statements::{declared_kind, put_uses};
pub use uses::Use;
