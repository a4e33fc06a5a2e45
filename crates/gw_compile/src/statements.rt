//! From the statements of a PROCEDURE to instructions.

ghost use Rattle.std.specs.Prelude.{◌≤◌, length, OnOk};
ghost use Rattle.gw_compile.specs.Writing.{Writes, WritesAll, WritesIf, Joins, Loops};
ghost use Rattle.gw_compile.specs.Writing.{JudgesBlock, JudgesIf, JudgesStatement, JudgesWhile};

use crate::faults::CompileFault;
use crate::numbering::Numbering;
use crate::parts::{
    assign, declare_all, lead_leap_on, lead_test_on, next_place, put_leap, put_test, put_turn,
    return_value,
};
use gw_object::Instruction;
use gw_text_expressions::Expression;
use gw_text_plus::PlusStatement;

/// Behind what there is, the code of a statement; whether a path leads on behind it.
#[cycle(statements)]
pub(crate) fn put_statement<'a, N: Numbering>(
    code: &mut Vec<Instruction>,
    names: &N,
    locals: &mut Vec<&'a str>,
    statement: &'a PlusStatement,
) -> Result<bool, CompileFault<'a>>
    requires { length locals.old.items ≤ 32 }
    ensures written { Writes result code.old code.new locals.old locals.new
        (N.numbers names.now) statement.now }
    ensures room { OnOk result (length locals.new.items ≤ 32) }
    ensures fault { JudgesStatement result code.old locals.old (N.numbers names.now) statement.now }
{
    match statement {
        PlusStatement::Block(statements) => put_block(code, names, locals, statements),
        PlusStatement::Temporary(temporaries) => {
            declare_all(locals, temporaries)?;
            Ok(true)
        }
        PlusStatement::Assign(name, value) => assign(code, names, locals, name, value),
        PlusStatement::If(test, first, other) => match other {
            None => put_if(code, names, locals, first, test),
            Some(other) => {
                let test_at = put_test(code, names, locals, test)?;
                let skips = put_statement(code, names, locals, first)?;
                let leap_at = put_leap(code, skips)?;
                lead_test_on(code, test_at);
                let goes_on = put_statement(code, names, locals, other)?;
                lead_leap_on(code, leap_at, skips);
                Ok(goes_on || skips)
            }
        },
        PlusStatement::While(test, body) => put_while(code, names, locals, body, test),
        PlusStatement::Return(value) => return_value(code, names, locals, value),
    }
}

/// Behind what there is, the code of the statements of a block.
#[cycle(statements)]
fn put_block<'a, N: Numbering>(
    code: &mut Vec<Instruction>,
    names: &N,
    locals: &mut Vec<&'a str>,
    statements: &'a [PlusStatement],
) -> Result<bool, CompileFault<'a>>
    requires { length locals.old.items ≤ 32 }
    ensures written { WritesAll result code.old code.new locals.old locals.new
        (N.numbers names.now) statements.now }
    ensures room { OnOk result (length locals.new.items ≤ 32) }
    ensures fault { JudgesBlock result code.old locals.old (N.numbers names.now) statements.now }
{
    let mut reached = true;
    for i in 0..statements.len() {
        reached = put_next(code, names, locals, reached, &statements[i])?;
    }
    Ok(reached)
}

/// Behind what there is, the code of a statement, where a path leads there; whether one leads on behind it.
#[cycle(statements)]
fn put_next<'a, N: Numbering>(
    code: &mut Vec<Instruction>,
    names: &N,
    locals: &mut Vec<&'a str>,
    reached: bool,
    statement: &'a PlusStatement,
) -> Result<bool, CompileFault<'a>>
    requires { length locals.old.items ≤ 32 }
    ensures written { Joins result code.old code.new locals.old locals.new
        (N.numbers names.now) reached statement.now }
    ensures room { OnOk result (length locals.new.items ≤ 32) }
    ensures fault { JudgesStatement result code.old locals.old (N.numbers names.now) statement.now }
{
    let start = code.len();
    let goes_on = put_statement(code, names, locals, statement)?;
    if reached {
        return Ok(goes_on);
    }
    code.truncate(start);
    Ok(false)
}

/// Behind what there is, the code of an IF without ELSE.
#[cycle(statements)]
fn put_if<'a, N: Numbering>(
    code: &mut Vec<Instruction>,
    names: &N,
    locals: &mut Vec<&'a str>,
    first: &'a PlusStatement,
    test: &'a Expression,
) -> Result<bool, CompileFault<'a>>
    requires { length locals.old.items ≤ 32 }
    ensures written { WritesIf result code.old code.new locals.old locals.new
        (N.numbers names.now) test.now first.now }
    ensures room { OnOk result (length locals.new.items ≤ 32) }
    ensures fault { JudgesIf result code.old locals.old (N.numbers names.now) test.now first.now }
{
    let at = put_test(code, names, locals, test)?;
    put_statement(code, names, locals, first)?;
    lead_test_on(code, at);
    Ok(true)
}

/// Behind what there is, the code of a WHILE.
#[cycle(statements)]
fn put_while<'a, N: Numbering>(
    code: &mut Vec<Instruction>,
    names: &N,
    locals: &mut Vec<&'a str>,
    body: &'a PlusStatement,
    test: &'a Expression,
) -> Result<bool, CompileFault<'a>>
    requires { length locals.old.items ≤ 32 }
    ensures written { Loops result code.old code.new locals.old locals.new
        (N.numbers names.now) test.now body.now }
    ensures room { OnOk result (length locals.new.items ≤ 32) }
    ensures fault { JudgesWhile result code.old locals.old (N.numbers names.now) test.now body.now }
{
    let target = next_place(code);
    let at = put_test(code, names, locals, test)?;
    let goes_on = put_statement(code, names, locals, body)?;
    put_turn(code, goes_on, target)?;
    lead_test_on(code, at);
    Ok(true)
}
