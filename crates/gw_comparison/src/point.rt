//! Points: models with their numbers, and what their runs say.

ghost use Rattle.std.specs.Prelude.{◌≤◌, length};

/// A figure, and its value in each run, in millionths: none where a run didn't come to its count, or has none.
#[derive(Drop)]
pub struct Column {
    /// What it is called, as `QUEUE WAITING TIME`.
    pub name: Vec<u8>,
    /// Whether it is told without being asked for.
    pub is_main: bool,
    /// The values, run by run, of at most 512; run r of each point has the same seeds.
    pub values: Vec<Option<i128>>,
    ghost few: { length values.items ≤ 512 },
}

/// A point: a model with its numbers, and what its runs say.
#[derive(Drop)]
pub struct Point {
    /// What it is called, as `NURSES=2`.
    pub name: Vec<u8>,
    /// Its figures.
    pub columns: Vec<Column>,
}
