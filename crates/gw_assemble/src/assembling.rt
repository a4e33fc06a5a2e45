//! From a model text to an object.

ghost use Rattle.std.specs.Prelude.{IfOk, IfErr};
ghost use Rattle.gw_assemble.specs.Assembly.{Assembles, IsRefusal};
ghost use Rattle.gw_assemble.specs.Completion.{IsAccepted};

use crate::finishing::finish;
use gw_object::Fault;
use gw_pieces::parts_of;
use gw_rules::Verified;
use gw_text::Model;
use std::alloc::Global;

/// The object that a model text becomes, accepted by the verifier: it has one block for each block statement, in order, each
/// operand that is an expression computes it, and no model is refused for its own state table (docs/model-text.md). A model
/// is refused, in this order (ours: docs/refusals.md): at the first line at fault, with the lowest code there, 80 Name, 81
/// Storage or 82 Limit; with 82 Limit at Nowhere, where what it becomes passes a limit of the object format; with the first
/// fault of kinds, 10 to 15, or of PLUS code, 30 to 35; where it gets no state table, with 82 Limit at Nowhere or the first
/// fault of flow, 20 to 28; with the first fault of weights, 40 to 42, where no slopes that are tried help; with 82 Limit at
/// Nowhere, where the object is too long with the slopes that help. Where memory runs out, it is 8 Memory at Nowhere.
pub fn assemble(alloc: Global, model: &Model) -> Result<Verified, Fault>
    ensures assembled { IfOk result (λ v. Assembles model.now.statements.items v) }
    ensures accepted { IfOk result IsAccepted }
    ensures refused { IfErr result (IsRefusal model.now.statements.items) }
{
    match parts_of(alloc, model) {
        Ok(parts) => finish(alloc, parts),
        Err(fault) => Err(fault),
    }
}
