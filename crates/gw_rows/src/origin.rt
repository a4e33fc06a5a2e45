//! Of what a row's run is one.

ghost use Rattle.std.specs.Prelude.{◌≡◌};
ghost use Rattle.gw_rows.specs.Rows as model;
ghost use Rattle.gw_rows.specs.Rows.{source_of};

/// Of what a row's run is one: rows of one study differ in nothing of it but the point.
#[derive(Drop)]
pub struct Origin {
    /// The digest of the model text, before numbers were put into it.
    pub model: Vec<u8>,
    /// How many rows there are in all, where that is known; else 0.
    pub rows: u64,
    /// The point, as `NURSES=2`; nothing of the model as it is.
    pub point: Vec<u8>,
    /// The termination count.
    pub count: u64,
    /// How many terminations are counted before the window begins; 0 where it is the whole run.
    pub from: u64,
}

impl Origin {
    /// Whether two rows are of one study: they may be of two of its points.
    pub fn is_of_study(&self, other: &Origin) -> bool
        ensures { result ≡ model.is_of_study (source_of self.now) (source_of other.now) }
    {
        self.model.as_slice() == other.model.as_slice()
            && self.rows == other.rows
            && self.count == other.count
            && self.from == other.from
    }
}
