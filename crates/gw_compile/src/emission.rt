//! From expressions to instructions.

ghost use Rattle.std.specs.Prelude.{◌≡◌, ◌≤◌, ◌∷◌, [], None, length, option_to_list, string_bytes};
ghost use Rattle.gw_compile.specs.Code as model;
ghost use Rattle.gw_compile.specs.Emission.{Puts, Emits, EmitsAll};
ghost use Rattle.gw_compile.specs.Unknown.{Judges, JudgesExpression, JudgesExpressions};
ghost use Rattle.gw_compile.specs.Unknown.{if_unknown, if_misfit};

use crate::attributes::attribute_in;
use crate::faults::CompileFault;
use crate::locals::{Meaning, name_meaning};
use crate::numbering::{Callee, Equ, Numbering};
use gw_object::Instruction;
use gw_text_expressions::Expression;

/// One more instruction.
pub(crate) fn put<'a>(
    code: &mut Vec<Instruction>,
    instruction: Instruction,
) -> Result<(), CompileFault<'a>>
    ensures code { Puts result code.old code.new (instruction ∷ []) }
    ensures fault { Judges None ⊥ result }
{
    match code.push(instruction) {
        Ok(()) => Ok(()),
        Err(_) => Err(CompileFault::Memory),
    }
}

/// The instruction for what a bare name stands for.
fn name_instruction(named: Meaning) -> Instruction
    ensures { result ≡ model.name_instruction named }
{
    match named {
        Meaning::Local(local) => Instruction::Get(local),
        Meaning::Of(Equ::Number(number)) => Instruction::Push(number),
        Meaning::Of(Equ::Procedure(procedure)) => Instruction::Call(procedure),
    }
}

/// The instruction for an operand, where what that names is known.
fn put_known<'a>(
    code: &mut Vec<Instruction>,
    known: Option<Instruction>,
    operand: &'a Expression,
) -> Result<(), CompileFault<'a>>
    ensures code { Puts result code.old code.new (option_to_list known) }
    ensures fault { Judges (if_unknown known operand.now) ⊥ result }
{
    match known {
        Some(instruction) => put(code, instruction),
        None => Err(CompileFault::Unknown(operand)),
    }
}

/// The call of a PROCEDURE with so many arguments.
fn put_call<'a>(
    code: &mut Vec<Instruction>,
    callee: Option<Callee>,
    given: usize,
    call: &'a Expression,
) -> Result<(), CompileFault<'a>>
    ensures code { Puts result code.old code.new (model.call_code callee) }
    ensures fault { Judges (if_misfit callee given call.now) ⊥ result }
{
    match callee {
        None => Err(CompileFault::Unknown(call)),
        Some(callee) if given == callee.arguments as usize => {
            put(code, Instruction::Call(callee.number))
        }
        Some(_) => Err(CompileFault::Arguments(call)),
    }
}

/// Behind what there is, the code of expressions, in order.
#[cycle(emission)]
fn emit_all<'a, N: Numbering>(
    code: &mut Vec<Instruction>,
    names: &N,
    locals: &[&str],
    expressions: &'a [Expression],
) -> Result<(), CompileFault<'a>>
    requires { length locals.now ≤ 32 }
    ensures code { EmitsAll result code.old code.new (N.numbers names.now) locals.now expressions.now }
    ensures fault { JudgesExpressions (N.numbers names.now) locals.now expressions.now result }
{
    for expression in expressions {
        emit(code, names, locals, expression)?;
    }
    Ok(())
}

/// Behind what there is, the code of an expression.
#[cycle(emission)]
#[tactic(auto, using(crate::proofs::Blaming::unknown_as))]
pub(crate) fn emit<'a, N: Numbering>(
    code: &mut Vec<Instruction>,
    names: &N,
    locals: &[&str],
    expression: &'a Expression,
) -> Result<(), CompileFault<'a>>
    requires { length locals.now ≤ 32 }
    ensures code { Emits result code.old code.new (N.numbers names.now) locals.now expression.now }
    ensures fault { JudgesExpression (N.numbers names.now) locals.now expression.now result }
{
    match expression {
        Expression::Whole(number) => put(code, Instruction::Push(*number)),
        Expression::Name(name) => {
            let known = name_meaning(names, locals, name).map(name_instruction);
            put_known(code, known, expression)
        }
        Expression::Sna(sna) => {
            let known = attribute_in(names, sna).map(Instruction::Value);
            put_known(code, known, expression)
        }
        Expression::Parentheses(inner) => emit(code, names, locals, inner),
        Expression::Unary(operator, operand) => {
            emit(code, names, locals, operand)?;
            put(code, Instruction::Unary(*operator))
        }
        Expression::Binary(operator, left, right) => {
            emit(code, names, locals, left)?;
            emit(code, names, locals, right)?;
            put(code, Instruction::Binary(*operator))
        }
        Expression::Call(name, arguments) => {
            match emit_all(code, names, locals, arguments) {
                Ok(()) => put_call(code, names.procedure(name), arguments.len(), expression),
                Err(fault) => Err(fault),
            }
        }
    }
}
