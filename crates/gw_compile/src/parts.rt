//! The parts of statements, as instructions.

ghost use Rattle.std.specs.Prelude.{◌≡◌, ◌≤◌, ◌<◌, ◌+◌, ◌++◌, ◌∷◌, [], None, true};
ghost use Rattle.std.specs.Prelude.{length, string_bytes, OnOk, IfOk};
ghost use Rattle.gw_object.specs.Limits.{most_locals};
ghost use Rattle.gw_compile.specs.Emission.{Puts, EmitsTest, IsBehind};
ghost use Rattle.gw_compile.specs.Scope.{scope_of, scope_with};
ghost use Rattle.gw_compile.specs.Statements as model;
ghost use Rattle.gw_compile.specs.Statements.{when};
ghost use Rattle.gw_compile.specs.Writing.{Assigns, EmitsValue, Returns, jump_back, with_jump, with_leap};
ghost use Rattle.gw_compile.specs.Writing.{JudgesAssignment, JudgesReturn};
ghost use Rattle.gw_compile.specs.Unknown.{Judges, JudgesExpression};

use crate::emission::{emit, put};
use crate::faults::CompileFault;
use crate::locals::local_of;
use crate::numbering::Numbering;
use gw_object::{Back, Instruction, MOST_LOCALS};
use gw_text_expressions::Expression;

/// How often a WHILE goes round at most, while one activation of its procedure lasts.
const TURNS: u32 = 10_000;

/// Where a jump leads that leads to what comes next. No code that keeps its limit comes as far as the last such place.
pub(crate) fn next_place(code: &[Instruction]) -> u16
    ensures { result ≡ model.target (length code.now) }
{
    u16::try_from(code.len()).unwrap_or(u16::MAX)
}

/// One more jump, whose target isn't known yet; where it stands.
fn put_jump<'a>(code: &mut Vec<Instruction>, jump: Instruction) -> Result<usize, CompileFault<'a>>
    ensures code { Puts result code.old code.new (jump ∷ []) }
    ensures place { IfOk result (λ place. place ≡ length code.old.items) }
    ensures fault { Judges None ⊥ result }
{
    let place = code.len();
    put(code, jump)?;
    Ok(place)
}

/// A jump, where the first branch of an IF leads round the second; where it stands.
pub(crate) fn put_leap<'a>(
    code: &mut Vec<Instruction>,
    skips: bool,
) -> Result<usize, CompileFault<'a>>
    ensures code { Puts result code.old code.new (when skips (Instruction.Jump 0 ∷ [])) }
    ensures place { IfOk result (λ place. place ≡ length code.old.items) }
    ensures fault { Judges None ⊥ result }
{
    if skips {
        put_jump(code, Instruction::Jump(0))
    } else {
        Ok(code.len())
    }
}

/// Lets the test at a place lead to what comes next where it is 0.
pub(crate) fn lead_test_on(code: &mut Vec<Instruction>, at: usize)
    requires { at < length code.old.items }
    ensures { code.new.items ≡ with_jump Instruction.JumpIfZero at code.old.items }
{
    let target = next_place(code);
    code[at] = Instruction::JumpIfZero(target);
}

/// Lets the jump at a place lead to what comes next, where there is one.
pub(crate) fn lead_leap_on(code: &mut Vec<Instruction>, at: usize, skips: bool)
    requires { skips ≡ true → at < length code.old.items }
    ensures { code.new.items ≡ with_leap skips at code.old.items }
{
    if skips {
        let target = next_place(code);
        code[at] = Instruction::Jump(target);
    }
}

/// The jump back of a WHILE, to its test, where its body goes on.
pub(crate) fn put_turn<'a>(
    code: &mut Vec<Instruction>,
    goes_on: bool,
    target: u16,
) -> Result<(), CompileFault<'a>>
    ensures code { Puts result code.old code.new (jump_back goes_on target) }
    ensures fault { Judges None ⊥ result }
{
    if goes_on {
        let count = TURNS;
        put(code, Instruction::Back(Back { target, count }))
    } else {
        Ok(())
    }
}

/// One more local.
fn declare<'a>(locals: &mut Vec<&'a str>, name: &'a String) -> Result<(), CompileFault<'a>>
    requires { length locals.old.items ≤ 32 }
    ensures names { OnOk result (scope_of locals.new.items
        ≡ scope_of locals.old.items ++ string_bytes name.now ∷ []) }
    ensures room { OnOk result (length locals.new.items ≤ 32) }
    ensures fault { Judges None (most_locals < length (scope_of locals.old.items) + 1) result }
{
    if locals.len() >= MOST_LOCALS as usize {
        return Err(CompileFault::Limit);
    }
    match locals.push(name.as_str()) {
        Ok(()) => Ok(()),
        Err(_) => Err(CompileFault::Memory),
    }
}

/// More locals, in order.
pub(crate) fn declare_all<'a>(
    locals: &mut Vec<&'a str>,
    names: &'a [String],
) -> Result<(), CompileFault<'a>>
    requires { length locals.old.items ≤ 32 }
    ensures names { OnOk result (scope_of locals.new.items ≡ scope_with locals.old.items names.now) }
    ensures room { OnOk result (length locals.new.items ≤ 32) }
    ensures fault { Judges None (most_locals < length (scope_with locals.old.items names.now)) result }
{
    for name in names {
        declare(locals, name)?;
    }
    Ok(())
}

/// The value on top of the stack goes into a local.
fn put_set<'a>(code: &mut Vec<Instruction>, local: Option<u8>) -> Result<(), CompileFault<'a>>
    ensures code { Puts result code.old code.new (model.set_code local) }
    ensures fault { Judges None ⊥ result }
{
    match local {
        Some(local) => put(code, Instruction::Set(local)),
        None => Ok(()),
    }
}

/// Whether a name is a local.
fn check_target<'a>(local: Option<u8>, name: &'a String) -> Result<(), CompileFault<'a>>
    ensures { Judges (model.if_no_target local (string_bytes name.now)) ⊥ result }
{
    match local {
        Some(_) => Ok(()),
        None => Err(CompileFault::Target(name)),
    }
}

/// Behind what there is, the code of name = e; a path leads on behind it.
pub(crate) fn assign<'a, N: Numbering>(
    code: &mut Vec<Instruction>,
    names: &N,
    locals: &[&str],
    name: &'a String,
    value: &'a Expression,
) -> Result<bool, CompileFault<'a>>
    requires { length locals.now ≤ 32 }
    ensures written { Assigns result code.old code.new (N.numbers names.now) locals.now
        name.now value.now }
    ensures fault { JudgesAssignment result code.old (N.numbers names.now) locals.now
        name.now value.now }
{
    let local = local_of(locals, name.as_str());
    check_target(local, name)?;
    emit(code, names, locals, value)?;
    put_set(code, local)?;
    Ok(true)
}

/// Behind what there is, the code of the value that is returned: 0 where none is written.
fn emit_returned<'a, N: Numbering>(
    code: &mut Vec<Instruction>,
    names: &N,
    locals: &[&str],
    value: &'a Option<Expression>,
) -> Result<(), CompileFault<'a>>
    requires { length locals.now ≤ 32 }
    ensures code { EmitsValue result code.old code.new (N.numbers names.now) locals.now value.now }
    ensures fault { JudgesReturn result code.old (N.numbers names.now) locals.now value.now }
{
    match value {
        Some(value) => emit(code, names, locals, value),
        None => put(code, Instruction::Push(0)),
    }
}

/// Behind what there is, the code of RETURN; no path leads on behind it.
pub(crate) fn return_value<'a, N: Numbering>(
    code: &mut Vec<Instruction>,
    names: &N,
    locals: &[&str],
    value: &'a Option<Expression>,
) -> Result<bool, CompileFault<'a>>
    requires { length locals.now ≤ 32 }
    ensures written { Returns result code.old code.new (N.numbers names.now) locals.now value.now }
    ensures fault { JudgesReturn result code.old (N.numbers names.now) locals.now value.now }
{
    emit_returned(code, names, locals, value)?;
    put(code, Instruction::Return)?;
    Ok(false)
}

/// Behind what there is, the code of a test, and a jump whose target isn't known yet; where that stands.
pub(crate) fn put_test<'a, N: Numbering>(
    code: &mut Vec<Instruction>,
    names: &N,
    locals: &[&str],
    test: &'a Expression,
) -> Result<usize, CompileFault<'a>>
    requires { length locals.now ≤ 32 }
    ensures code { EmitsTest result code.old code.new (N.numbers names.now) locals.now test.now }
    ensures place { IfOk result (IsBehind (N.numbers names.now) locals.now test.now code.old) }
    ensures fault { JudgesExpression (N.numbers names.now) locals.now test.now result }
{
    emit(code, names, locals, test)?;
    put_jump(code, Instruction::JumpIfZero(0))
}
