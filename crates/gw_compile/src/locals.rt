//! The locals of a PROCEDURE, and what a bare name stands for among them.

ghost use Rattle.std.specs.Prelude.{◌≡◌, ◌≤◌, ◌<◌, length, map};
ghost use Rattle.gw_compile.specs.Numbers.{number_of, meaning_by};
ghost use Rattle.gw_compile.specs.Scope.{scope_of, meaning_among};

use crate::numbering::{Equ, Numbering};

/// What a bare name in an expression stands for.
#[derive(Clone, Copy)]
pub(crate) enum Meaning {
    /// An argument or a temporary of the PROCEDURE, by its number.
    Local(u8),
    /// An EQU.
    Of(Equ),
}

/// The number of a local.
pub(crate) fn local_of(locals: &[&str], name: &str) -> Option<u8>
    requires { length locals.now ≤ 32 }
    ensures { result ≡ number_of (scope_of locals.now) name.now }
{
    for i in 0..locals.len() {
        if locals[i] == name {
            return Some(i as u8);
        }
    }
    None
}

/// A local, or else an EQU.
fn meaning_by(local: Option<u8>, equ: Option<Equ>) -> Option<Meaning>
    ensures { result ≡ meaning_by local equ }
{
    match (local, equ) {
        (Some(local), _) => Some(Meaning::Local(local)),
        (None, Some(equ)) => Some(Meaning::Of(equ)),
        (None, None) => None,
    }
}

/// What a bare name stands for: inside a PROCEDURE its arguments and temporaries go before EQUs.
pub(crate) fn name_meaning<N: Numbering>(
    names: &N,
    locals: &[&str],
    name: &String,
) -> Option<Meaning>
    requires { length locals.now ≤ 32 }
    ensures { result ≡ meaning_among (N.numbers names.now) locals.now name.now }
{
    meaning_by(local_of(locals, name.as_str()), names.equ(name))
}
