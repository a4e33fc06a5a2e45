//! Evaluation of procedures.

ghost use Rattle.std.specs.Prelude.{[]};
ghost use Rattle.gw_rules.specs.Meaning.{Evaluates};
ghost use Rattle.gw_plus.specs.Activation.{Activates, Begins, HasGoodCode};
ghost use Rattle.gw_plus.specs.Reading.{environment_of, IsOf, CanEvaluate};

use crate::activation::{Activation, Step, finished, opening_locals};
use crate::env::Env;
use arrayvec::ArrayVec;
use gw_object::Parts;
use gw_rules::{PlusEnd, Verified};

/// The value or the end of the procedure of this number, from 0, that begins with these locals.
fn activate(
    parts: &Parts,
    number: u16,
    locals: ArrayVec<i64, 32>,
    env: &Env,
) -> Result<i64, PlusEnd>
    requires code { HasGoodCode parts.now }
    requires environment { IsOf parts.now env.now }
    requires begins { Begins parts.now (environment_of env.now) number locals.items }
    ensures { Activates parts.now env.now number locals.items result }
{
    let procedure = &parts.procedures.as_slice()[number as usize];
    let code = procedure.code.as_slice();
    let mut activation = Activation::begin(locals);
    loop {
        let instruction = code[activation.place];
        match activation.step(parts, env, instruction) {
            Step::Went => {}
            Step::Called(called, locals) => {
                let value = activate(parts, called, locals, env)?;
                activation.push(finished(parts, instruction, value));
            }
            Step::Returned(value) => return Ok(value),
            Step::Ended(end) => return Err(end),
        }
    }
}

/// The value of a procedure without arguments, by its number from 0, or how its evaluation ends (docs/plus-code.md).
///
/// It tests nothing that the checks have made sure of, and takes no memory.
pub fn eval(verified: &Verified, procedure: u16, env: &Env) -> Result<i64, PlusEnd>
    requires environment { IsOf verified.now env.now }
    requires can { CanEvaluate verified.now (environment_of env.now) procedure }
    ensures { Evaluates verified.now (environment_of env.now) procedure [] result }
{
    let parts = verified.object().parts();
    let locals = opening_locals(parts.procedures.as_slice()[procedure as usize].locals, &[]);
    activate(parts, procedure, locals, env)
}
