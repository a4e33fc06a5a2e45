//! Laws of rows. Each is a function without parameters whose clauses are the law.

ghost use Rattle.gw_rows.specs.Laws.{ChangesAreTold, DigestsArePlain, HeadersTellTheirFigures, ModelsAreReadable, RowsAreNoHeaders};
ghost use Rattle.gw_rows.specs.Laws.{RowsAreNoRefusalHeaders, RowsAreNoRefusals, RowsAreOfOneRun, RowsAreOfOneSource, RowsFollow, RowsTellTheirRuns};

/// The rows of runs, and then those of the runs behind them, are the rows of all.
pub fn rows_follow()
    ensures { RowsFollow }
{}

/// Rows with one text are of one model, one point, one count, one window and one run.
pub fn rows_are_of_one_run()
    ensures { RowsAreOfOneRun }
{}

/// Rows with one text, of the same figures, tell the same of their runs: the end, the steps, each value, each change, and each stream.
pub fn rows_tell_their_runs()
    ensures { RowsTellTheirRuns }
{}

/// Lines before rows with one text are of the same figures.
pub fn headers_tell_their_figures()
    ensures { HeadersTellTheirFigures }
{}

/// Two rows with one text are of one source: of one model, one number of rows in all, one point, one count and one window.
pub fn rows_are_of_one_source()
    ensures { RowsAreOfOneSource }
{}

/// No row is a line before rows.
pub fn rows_are_no_headers()
    ensures { RowsAreNoHeaders }
{}

/// No row is that of a refusal.
pub fn rows_are_no_refusals()
    ensures { RowsAreNoRefusals }
{}

/// No row is the line before that of a refusal.
pub fn rows_are_no_refusal_headers()
    ensures { RowsAreNoRefusalHeaders }
{}

/// What `changes` tells of figures are changes that rows tell: none of a figure that is neither an average nor a content.
pub fn changes_are_told()
    ensures { ChangesAreTold }
{}

/// Each figure of a model that has a spelling is the one of its name, which needs no quotes: so all are found in the line before its
/// rows.
pub fn models_are_readable()
    ensures { ModelsAreReadable }
{}

/// The digest of a text needs no quotes.
pub fn digests_are_plain()
    ensures { DigestsArePlain }
{}
