//! The checks of flow: whether what is known of a transaction in each row of the state table
//! suffices.
//!
//! It promises that flow passes exactly where each block's rules hold in its row, and what is known
//! of a transaction fits the row of where it goes on; and, of a block in any state, its flow edges.
//! Where the table comes from it doesn't know.
#![tactic(auto)]

mod abstract_state;
mod checking;
mod edges;
mod fits;
mod flow;
mod leaving;
mod lists;
mod lookups;
mod return_edges;
mod rules;
mod setting;
mod state;
mod table;

pub use abstract_state::{AbsState, Amount, StateParts};
pub use checking::check_flow;
pub use edges::{Edge, own_edges_of};
pub use flow::out_edges;
pub use lookups::Lookups;
pub use rules::check_rules;
pub use state::{Param, ParamKind, State};
