//! Laws of the object format. Each is a function without parameters whose clauses are the law.

ghost use Rattle.std.specs.Prelude.{◌≡◌, Ok};
ghost use Rattle.gw_object.specs.declared.parts.Parts.{Parts};
ghost use Rattle.gw_object.specs.Grammar.{HasSpelling, spelling};
ghost use Rattle.gw_object.specs.Reading.{first_fault};
ghost use Rattle.gw_object_bytes.specs.Laws.{SpellingsAreApart, ReadingIsSpelled, FrontsAreTruncated, MoreIsTrailing};

/// Bytes begin with at most one spelling, and it is that of one object: no two objects share a spelling, and no
/// spelling is a proper prefix of another.
pub fn one_spelling_and_no_prefix()
    ensures { SpellingsAreApart }
{}

/// What is written is read again, to equal parts.
pub fn written_is_read()
    ensures { (p : Parts) → HasSpelling p → first_fault (spelling p) ≡ Ok p }
{}

/// What is read is written again, to the same bytes.
pub fn read_is_written()
    ensures { ReadingIsSpelled }
{}

/// A spelling cut short is refused as truncated, wherever it is cut.
pub fn fronts_are_truncated()
    ensures { FrontsAreTruncated }
{}

/// A spelling with more bytes behind it, up to 1 MiB in all, is refused as trailing, at the first of those bytes.
pub fn more_is_trailing()
    ensures { MoreIsTrailing }
{}
