//! Procedures of expressions and of PROCEDUREs.

ghost use Rattle.std.specs.Prelude.{◌≡◌, ◌≤◌, [], length};
ghost use Rattle.std.specs.Prelude.{IfOk, MatchBool, None};
ghost use Rattle.gw_object.specs.Limits.{most_locals};
ghost use Rattle.gw_object.specs.CodeGrammar as grammar;
ghost use Rattle.gw_object.specs.CodeGrammar.{backs};
ghost use Rattle.gw_compile.specs.Code.{IsProcedureCode};
ghost use Rattle.gw_compile.specs.Emission.{Puts};
ghost use Rattle.gw_compile.specs.Keeps.{Compiles, CompilesProcedure, NeedsWhatItAsks};
ghost use Rattle.gw_compile.specs.Keeps.{JudgesBody, JudgesProcedure};
ghost use Rattle.gw_compile.specs.Keeps.{KeepsCodeLimits, ExceedsCodeLimits};
ghost use Rattle.gw_compile.specs.Statements as model;
ghost use Rattle.gw_compile.specs.Statements.{JudgesPiece, end_code, when};
ghost use Rattle.gw_compile.specs.Unknown.{Judges, first_blame};

use crate::emission::{emit, put};
use crate::faults::CompileFault;
use crate::needs::needs_in;
use crate::numbering::Numbering;
use crate::parts::declare_all;
use crate::statements::put_statement;
use gw_fields::Items;
use gw_object::{Instruction, MOST_BACKS, MOST_INSTRUCTIONS, Procedure};
use gw_text_expressions::Expression;
use gw_text_plus as text;
use std::alloc::{AllocError, Global};

/// The procedure of some code, with so many arguments and locals.
fn procedure_of<N: Numbering>(
    alloc: Global,
    names: &N,
    procedures: &[Procedure],
    counts: (u8, u8),
    code: Vec<Instruction>,
) -> Result<Procedure, AllocError>
    ensures counts { IfOk result (λ pr. (pr.arguments ≡ counts.0) × (pr.locals ≡ counts.1)) }
    ensures code { IfOk result (λ pr. pr.code ≡ code.items) }
    ensures needs { IfOk result (NeedsWhatItAsks (N.numbers names.now) procedures.now) }
{
    let needs = needs_in(alloc, names, procedures, &code)?;
    Ok(Procedure {
        arguments: counts.0,
        locals: counts.1,
        needs: Items::from_vec(needs),
        code: Items::from_vec(code),
    })
}

/// The code of the procedure that an expression becomes.
fn code_of<'a, N: Numbering>(
    alloc: Global,
    names: &N,
    expression: &'a Expression,
) -> Result<Vec<Instruction>, CompileFault<'a>>
    ensures code { IfOk result (IsProcedureCode (N.numbers names.now) expression.now) }
    ensures fault { Judges (first_blame (N.numbers names.now) [] expression.now) ⊥ result }
{
    let mut code = Vec::new(alloc);
    emit(&mut code, names, &[], expression)?;
    put(&mut code, Instruction::Return)?;
    Ok(code)
}

/// The procedure that an expression becomes, by what its names stand for, where these procedures are compiled already.
/// In each object that passes, and in each environment that sets what the procedure needs, it comes to the expression's
/// value (docs/plus-code.md).
pub fn compile<'a, N: Numbering>(
    alloc: Global,
    names: &N,
    procedures: &[Procedure],
    expression: &'a Expression,
) -> Result<Procedure, CompileFault<'a>>
    ensures compiled { Compiles (N.numbers names.now) procedures.now expression.now result }
    ensures fault { JudgesProcedure (N.numbers names.now) expression.now result }
{
    let code = code_of(alloc, names, expression)?;
    if code.len() > MOST_INSTRUCTIONS {
        return Err(CompileFault::Limit);
    }
    match procedure_of(alloc, names, procedures, (0, 0), code) {
        Ok(procedure) => Ok(procedure),
        Err(AllocError) => Err(CompileFault::Memory),
    }
}

/// What a PROCEDURE becomes, but for its needs.
#[derive(Drop)]
struct Body {
    arguments: u8,
    locals: u8,
    code: Vec<Instruction>,
}

/// The end of a PROCEDURE, where a path comes to it: its value is 0.
fn put_end<'a>(code: &mut Vec<Instruction>, is_reached: bool) -> Result<(), CompileFault<'a>>
    ensures code { Puts result code.old code.new (when is_reached end_code) }
    ensures fault { Judges None ⊥ result }
{
    if is_reached {
        put(code, Instruction::Push(0))?;
        put(code, Instruction::Return)?;
    }
    Ok(())
}

/// What a PROCEDURE becomes, but for its needs.
fn body_of<'a, N: Numbering>(
    alloc: Global,
    names: &N,
    procedure: &'a text::Procedure,
) -> Result<Body, CompileFault<'a>>
    ensures arguments { IfOk result (λ b. b.arguments ≡ length procedure.now.arguments.items) }
    ensures locals { IfOk result (λ b.
        b.locals ≡ model.local_count (N.numbers names.now) procedure.now) }
    ensures room { IfOk result (λ body. body.locals ≤ most_locals) }
    ensures code { IfOk result (λ b.
        b.code.items ≡ model.code_of (N.numbers names.now) procedure.now) }
    ensures fault { JudgesPiece (model.body_of (N.numbers names.now) procedure.now) result }
{
    let mut code = Vec::new(alloc);
    let mut locals = Vec::new(alloc);
    declare_all(&mut locals, &procedure.arguments)?;
    let arguments = locals.len() as u8;
    let goes_on = put_statement(&mut code, names, &mut locals, &procedure.statement)?;
    put_end(&mut code, goes_on)?;
    let locals = locals.len() as u8;
    Ok(Body {
        arguments,
        locals,
        code,
    })
}

/// Whether an instruction is a BACK.
fn is_back(instruction: &Instruction) -> bool
    ensures { result ≡ grammar.is_back instruction.now }
{
    matches!(instruction, Instruction::Back(_))
}

/// How many instructions of code are BACKs.
fn count_backs(code: &[Instruction]) -> usize
    ensures { result ≡ backs code.now }
{
    code.iter()
        .filter(|instruction| is_back(instruction))
        .count()
}

/// Whether code has no more instructions and BACKs than that of a procedure may have.
fn keeps_limits(code: &[Instruction]) -> bool
    ensures { MatchBool result (KeepsCodeLimits code.now) (ExceedsCodeLimits code.now) }
{
    code.len() <= MOST_INSTRUCTIONS && count_backs(code) <= MOST_BACKS
}

/// The procedure that a PROCEDURE becomes, by what its names stand for, where these procedures are compiled already.
/// Each expression in it keeps its value; code that no path reaches is left out (docs/plus-code.md).
pub fn compile_procedure<'a, N: Numbering>(
    alloc: Global,
    names: &N,
    procedures: &[Procedure],
    procedure: &'a text::Procedure,
) -> Result<Procedure, CompileFault<'a>>
    ensures compiled { CompilesProcedure (N.numbers names.now) procedures.now procedure.now result }
    ensures fault { JudgesBody (model.body_of (N.numbers names.now) procedure.now) result }
{
    let body = body_of(alloc, names, procedure)?;
    if !keeps_limits(&body.code) {
        return Err(CompileFault::Limit);
    }
    let counts = (body.arguments, body.locals);
    match procedure_of(alloc, names, procedures, counts, body.code) {
        Ok(procedure) => Ok(procedure),
        Err(AllocError) => Err(CompileFault::Memory),
    }
}
