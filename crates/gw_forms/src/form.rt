//! What a form that is left out looks like, and what is told of it. Where there are several names, blanks stand between them.

/// What of a line is a form, beside the statement and the operand in which it stands.
#[derive(Clone, Copy)]
pub enum Test {
    /// The word of the statement.
    Word,
    /// The first letters of a word.
    Abbreviation,
    /// One of these names with `(` behind it.
    Call(&'static [u8]),
    /// A function of the PLUS library with `(` behind it.
    Library,
    /// One of these names.
    Name(&'static [u8]),
    /// A name that is no attribute.
    NameAlone,
    /// A name of this letter and a number.
    Letter(u8),
    /// An attribute of one of these classes, as `SR$BEDS` or `MP1`.
    Class(&'static [u8]),
    /// An attribute with `$` of a class that this language hasn't.
    OtherClass,
    /// A random number beside a sign.
    RandomWithin,
    /// A number with a point.
    Decimal,
    /// A whole number at the front of the operand.
    Whole,
    /// A text in quotes.
    Text,
    /// The whole operand.
    First,
    /// The whole of an operand behind the first.
    Further,
    /// A value in the place of a name.
    Computed,
    /// `/`.
    Slash,
    /// `=`.
    Equals,
    /// `%` or `**`.
    Power,
    /// `*` before a value.
    StarFirst,
    /// `*` between values.
    StarBetween,
    /// A sign between values outside of parentheses.
    Operator,
    /// What stands behind the operands, with a blank before it.
    Behind,
    /// `*` at the front of a line.
    StarLine,
    /// A label with a point in it.
    LabelPoint,
    /// A label with a digit in front.
    LabelDigit,
}

/// A form of GPSS World that is left out here.
#[derive(Clone, Copy)]
pub struct Form {
    /// What it is called.
    pub name: &'static str,
    /// The codes of the refusals to which it leads, and 0 in other places.
    pub codes: [u16; 3],
    /// The words of the statements in which it stands; none stands for all.
    pub words: &'static [u8],
    /// The operand in which it stands, from 0; none stands for all.
    pub operand: Option<u8>,
    /// What of the line it is.
    pub test: Test,
    /// What it is in GPSS World.
    pub gpss: &'static str,
    /// What stands in its place here.
    pub here: &'static str,
    /// Lines that do so, behind a GENERATE and before a TERMINATE; none where nothing does.
    pub example: &'static str,
}
