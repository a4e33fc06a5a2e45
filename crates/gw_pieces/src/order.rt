//! The order of the procedures: that of the text, but what one calls comes before it.

ghost use Rattle.std.specs.Prelude.{◌≡◌, ◌++◌, ◌∷◌, [], OnOk, IfOk, Some, slice_get, set, true, string_bytes};
ghost use Rattle.gw_name_uses.specs.Mentions.{Puts, mention, mentions};
ghost use Rattle.gw_pieces.specs.Order as model;
ghost use Rattle.gw_pieces.specs.Order.{lookup_for, lookup_of, ordered_by};

use crate::origins::{Origin, expression_at, place_of, whole_call};
use gw_name_uses::{Use, put_uses_of_operand, put_uses_of_procedure};
use gw_names::{Known, value_of_name};
use gw_rules::EntityKind;
use gw_text::{Body, EntityValue, Model, Operand, Sna, Statement};
use std::alloc::{AllocError, Global};

/// What the order is found from.
#[derive(Clone, Copy)]
pub(crate) struct Text<'a> {
    /// The statements.
    pub(crate) model: &'a Model,
    /// Their names.
    pub(crate) known: &'a Known,
    /// Where procedures come from, in the order of the text.
    pub(crate) origins: &'a [Origin],
}

/// The order, while it is found.
#[derive(Drop)]
pub(crate) struct Order {
    /// Which origins were come to.
    pub(crate) visited: Vec<bool>,
    /// The origins of the procedures that have their numbers, in order.
    pub(crate) done: Vec<Origin>,
}

/// The origin of a PROCEDURE, an EQU or a variable by its statement. (It is none of those at hand where an EQU is a number.)
fn origin_of(statement: Option<usize>) -> Option<Origin>
    ensures { result ≡ model.of_statement statement }
{
    match statement {
        Some(statement) => Some(Origin {
            statement,
            operand: 0,
        }),
        None => None,
    }
}

/// The origin of a variable that an attribute is.
fn origin_of_attribute(text: &Text<'_>, sna: &Sna) -> Option<Origin>
    ensures { result ≡ model.of_attribute (lookup_of text.now) sna.now }
{
    let declarations = &text.known.declarations;
    match sna {
        Sna::OfEntity(value, name) => match *value {
            EntityValue::Variable => origin_of(declarations.get(EntityKind::Variable, name)),
            EntityValue::BVariable => origin_of(declarations.get(
                EntityKind::BooleanVariable,
                name,
            )),
            _ => None,
        },
        _ => None,
    }
}

/// The origin of what the argument of the FUNCTION calls that is this statement.
fn origin_of_argument(text: &Text<'_>, argument: &Operand, statement: usize) -> Option<Origin>
    ensures { result ≡ model.of_argument (lookup_of text.now) statement (Some argument.now) }
{
    match argument {
        Operand::Name(name) => origin_of(value_of_name(&text.known.equs, name)),
        Operand::Sna(sna) => origin_of_attribute(text, sna),
        Operand::Expression(expression) => match whole_call(expression) {
            Some(name) => origin_of(value_of_name(&text.known.procedures, name)),
            None => Some(Origin {
                statement,
                operand: 0,
            }),
        },
        Operand::Missing | Operand::Whole(_) | Operand::Fraction(_) | Operand::Both => None,
    }
}

/// The origin of what a FUNCTION calls for its argument, by its statement.
fn origin_of_function(text: &Text<'_>, statement: Option<usize>) -> Option<Origin>
    ensures { result ≡ model.of_function (lookup_of text.now) statement }
{
    match statement {
        Some(number) => match text.model.statements.get(number) {
            Some(statement) => match statement.operands.get(0) {
                Some(argument) => origin_of_argument(text, argument, number),
                None => None,
            },
            None => None,
        },
        None => None,
    }
}

/// The origin of what an entity calls.
fn origin_of_entity(text: &Text<'_>, kind: EntityKind, name: &String) -> Option<Origin>
    ensures { result ≡ model.of_entity (lookup_of text.now) kind (string_bytes name.now) }
{
    let declarations = &text.known.declarations;
    match kind {
        EntityKind::Function => origin_of_function(text, declarations.get(kind, name)),
        EntityKind::Variable => origin_of(declarations.get(kind, name)),
        EntityKind::BooleanVariable => origin_of(declarations.get(kind, name)),
        _ => None,
    }
}

/// The origin of what is called by a use.
fn called_by(text: &Text<'_>, used: Use<'_>) -> Option<Origin>
    ensures { result ≡ model.origin_called (lookup_of text.now) (mention used.entry) }
{
    match used {
        Use::Entity(kind, name) => origin_of_entity(text, kind, name),
        Use::Equ(name) => origin_of(value_of_name(&text.known.equs, name)),
        Use::Call(name, _) => origin_of(value_of_name(&text.known.procedures, name)),
        Use::Parameter(_) | Use::ParameterNumber(_) | Use::Label(_) | Use::Target(_) => None,
    }
}

/// Its place among the origins.
fn place_called(text: &Text<'_>, used: Use<'_>) -> Option<usize>
    ensures { result ≡ model.place_of_called (lookup_of text.now) (mention used.entry) }
{
    match called_by(text, used) {
        Some(origin) => place_of(text.origins, origin),
        None => None,
    }
}

/// The place of what is called by a use, behind others.
fn put_callee(callees: &mut Vec<usize>, text: &Text<'_>, used: Use<'_>) -> Result<(), AllocError>
    ensures { OnOk result (model.AddsCallee text.now (mention used.entry) callees.old callees.new) }
{
    match place_called(text, used) {
        Some(place) => callees.push(place).map_err(|_| AllocError),
        None => Ok(()),
    }
}

/// The places of those that are called by these uses, behind others.
fn put_callees(
    callees: &mut Vec<usize>,
    text: &Text<'_>,
    uses: &[Use<'_>],
) -> Result<(), AllocError>
    ensures { OnOk result (model.AddsCallees text.now (mentions uses.now) callees.old callees.new) }
{
    for i in 0..uses.len() {
        put_callee(callees, text, uses[i])?;
    }
    Ok(())
}

/// Behind what there is, what stands at a position of a statement uses, in the order of the text.
fn put_uses_at<'a>(
    uses: &mut Vec<Use<'a>>,
    statement: &'a Statement,
    operand: usize,
) -> Result<(), AllocError>
    ensures { Puts result uses.old uses.new (model.mentions_at statement.now operand) }
{
    match &statement.body {
        Body::Procedure(procedure) => put_uses_of_procedure(uses, procedure),
        _ => match expression_at(statement, operand) {
            Some(expression) => put_uses_of_operand(uses, expression),
            None => Ok(()),
        },
    }
}

/// The places of the origins of what is called at an origin, in order of first sight.
fn callees_of(alloc: Global, text: &Text<'_>, origin: Origin) -> Result<Vec<usize>, AllocError>
    ensures { IfOk result (model.AreCallees text.now origin) }
{
    let mut callees = Vec::new(alloc);
    match text.model.statements.get(origin.statement) {
        Some(statement) => {
            let mut uses = Vec::new(alloc);
            put_uses_at(&mut uses, statement, origin.operand)?;
            put_callees(&mut callees, text, &uses)?;
            Ok(callees)
        }
        None => Ok(callees),
    }
}

/// The origin at a place, unless it was come to.
fn unvisited(visited: &[bool], origins: &[Origin], place: usize) -> Option<Origin>
    ensures { result ≡ model.origin_unless_visited (slice_get visited.now place) (slice_get origins.now place) }
{
    match visited.get(place) {
        Some(true) => None,
        Some(false) => origins.get(place).copied(),
        None => None,
    }
}

/// The origin at a place is come to.
fn mark(visited: &mut Vec<bool>, place: usize)
    ensures { visited.new.items ≡ set visited.old.items place true }
{
    if place < visited.len() {
        visited[place] = true;
    }
}

/// An origin gets its place behind others.
fn put_origin(done: &mut Vec<Origin>, origin: Origin) -> Result<(), AllocError>
    ensures { OnOk result (done.new.items ≡ done.old.items ++ origin ∷ []) }
{
    done.push(origin).map_err(|_| AllocError)
}

/// Gives the procedure of the origin at a place its number, after those that it calls, unless it was come to before. It goes
/// at most so deep.
#[cycle(order)]
fn visit(
    alloc: Global,
    text: &Text<'_>,
    order: &mut Order,
    place: usize,
    depth: usize,
) -> Result<(), AllocError>
    ensures { OnOk result (model.Visits text.now place depth order.old order.new) }
{
    match unvisited(&order.visited, text.origins, place) {
        Some(origin) => {
            mark(&mut order.visited, place);
            visit_callees(alloc, text, order, origin, depth)?;
            put_origin(&mut order.done, origin)
        }
        None => Ok(()),
    }
}

/// The same for what an origin calls, in order.
#[cycle(order)]
fn visit_callees(
    alloc: Global,
    text: &Text<'_>,
    order: &mut Order,
    origin: Origin,
    depth: usize,
) -> Result<(), AllocError>
    ensures { OnOk result (model.VisitsCallees text.now origin depth order.old order.new) }
{
    if depth == 0 {
        return Ok(());
    }
    let callees = callees_of(alloc, text, origin)?;
    visit_all(alloc, text, order, &callees, depth - 1)
}

/// The same for the origins at these places, in order.
#[cycle(order)]
fn visit_all(
    alloc: Global,
    text: &Text<'_>,
    order: &mut Order,
    places: &[usize],
    depth: usize,
) -> Result<(), AllocError>
    ensures { OnOk result (model.VisitsPlaces text.now places.now depth order.old order.new) }
{
    for i in 0..places.len() {
        visit(alloc, text, order, places[i], depth)?;
    }
    Ok(())
}

/// The same for all origins, in the order of the text.
fn visit_each(alloc: Global, text: &Text<'_>, order: &mut Order) -> Result<(), AllocError>
    ensures { OnOk result (model.SearchesAll text.now order.old order.new) }
{
    for place in 0..text.origins.len() {
        visit(alloc, text, order, place, text.origins.len())?;
    }
    Ok(())
}

/// The origins in the order of their procedures: that of the text, except that what one calls comes before it, in order of
/// first sight. (Where procedures call each other in a cycle, the one that is come to first is the last of them.)
pub(crate) fn ordered(
    alloc: Global,
    model: &Model,
    known: &Known,
    origins: &[Origin],
) -> Result<Vec<Origin>, AllocError>
    ensures { IfOk result (λ order.
        order.items ≡ ordered_by (lookup_for known.now model.now origins.now)) }
{
    let text = Text {
        model,
        known,
        origins,
    };
    let mut order = Order {
        visited: vec![in alloc; false; origins.len()]?,
        done: Vec::with_capacity(alloc, origins.len())?,
    };
    visit_each(alloc, &text, &mut order)?;
    let Order { visited, done } = order;
    drop(visited);
    Ok(done)
}
