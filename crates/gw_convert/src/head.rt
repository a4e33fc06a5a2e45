//! The lines at the head of the text.

use crate::numbers::unit_of;
use crate::plan::Plan;
use crate::rules::{RULES, Rule, Uses};
use gw_writing::{put, put_number};
use std::alloc::AllocError;

/// Ten to the power of so many places, at most six.
fn factor_of(places: u32) -> u64 {
    1_000_000 / unit_of(places)
}

/// The factor of the model.
fn put_factor(out: &mut Vec<u8>, plan: &Plan<'_>) -> Result<(), AllocError> {
    put(out, "; From GPSS World, by planner convert. ")?;
    if plan.places == 0 {
        return put(out, "One clock unit is the model's own unit of time.\n");
    }
    put_number(out, "One clock unit is 1/", factor_of(plan.places))?;
    put(
        out,
        " of the model's unit of time: each time is multiplied by ",
    )?;
    put_number(out, "", factor_of(plan.places))?;
    put(out, ".\n")
}

/// A rule that was used, and how often.
fn put_use(out: &mut Vec<u8>, rule: Rule, count: usize) -> Result<(), AllocError> {
    put(
        out,
        match rule.mark() {
            "" => ";   exactly: ",
            "; NEAR: " => ";   nearly:  ",
            _ => ";   left:    ",
        },
    )?;
    put(out, rule.title())?;
    put_number(out, " (", count as u64)?;
    put(out, ")\n")
}

/// The head of a text that was written by these rules.
pub(crate) fn put_front(out: &mut Vec<u8>, plan: &Plan<'_>, uses: &Uses) -> Result<(), AllocError> {
    put_factor(out, plan)?;
    for rule in RULES {
        let count = uses.count(rule);
        if count > 0 {
            put_use(out, rule, count)?;
        }
    }
    Ok(())
}
