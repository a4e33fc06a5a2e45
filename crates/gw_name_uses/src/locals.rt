//! The locals of a PROCEDURE: its arguments, and the temporaries declared above.

ghost use Rattle.std.specs.Prelude.{◌≡◌, string_bytes};
ghost use Rattle.gw_name_uses.specs.Locals.{Hold, names_of};
ghost use Rattle.gw_name_uses.specs.Mentions as model;
ghost use Rattle.gw_name_uses.specs.Mentions.{with_local, with_declared};

use indexmap::IndexSet;
use std::alloc::AllocError;

/// One more local.
#[tactic(auto, using(crate::proofs::Naming::declared_is))]
fn declare(locals: &mut IndexSet<String>, name: &String) -> Result<(), AllocError>
    ensures { Hold result locals.new (with_local (names_of locals.old) (string_bytes name.now)) }
{
    match locals.insert(name.clone()?) {
        Ok(_) => Ok(()),
        Err(_) => Err(AllocError),
    }
}

/// More locals, in order.
pub(crate) fn declare_all(locals: &mut IndexSet<String>, names: &[String]) -> Result<(), AllocError>
    ensures { Hold result locals.new (with_declared (names_of locals.old) names.now) }
{
    for i in 0..names.len() {
        declare(locals, &names[i])?;
    }
    Ok(())
}

/// Whether a name is a local.
pub(crate) fn is_local(locals: &IndexSet<String>, name: &String) -> bool
    ensures { result ≡ model.is_local (names_of locals.now) (string_bytes name.now) }
{
    locals.contains(name.as_str())
}
