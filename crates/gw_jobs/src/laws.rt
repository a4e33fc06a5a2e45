//! The law of replies, as the contract of a function that does nothing.

ghost use Rattle.gw_jobs.specs.Answers.{EqualRowsAreToldAlike};

/// Equal rows are told alike: whatever tables two replies come from, whoever collects them, and
/// however their jobs were run, where the rows that are collected are equal, so are the end and each
/// byte of the report. With the laws of isolation a user who is told of equal rows is told the same.
pub fn equal_rows_are_told_alike()
    ensures { EqualRowsAreToldAlike }
{}
