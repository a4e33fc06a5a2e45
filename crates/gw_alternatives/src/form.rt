//! How alternatives are told.

/// The form of an answer.
#[derive(Clone, Copy)]
pub enum Form<'a> {
    /// Tables, one below the other, and differences.
    Table,
    /// Records with commas between their fields (RFC 4180).
    Csv,
    /// A picture (SVG) of the figure of this name.
    Picture(&'a [u8]),
}
