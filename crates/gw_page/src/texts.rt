//! What is said where no model is answered.

/// No command is asked for, or by wrong words.
pub(crate) const USAGE: &[u8] =
    b"usage: the words of the command line stand behind the ?, with & between them, and the text of the model is the body
POST /explain
POST /explain?CODE
POST /list
POST /convert
POST /chart?FROM&TO&--name=TEXT
POST /points?FROM&TO
POST /trace?FROM&TO
POST /report?SEED&COUNT
POST /study?RUNS&COUNT&NURSES=2,3&--from=W&--seeds=K&--all&--csv&--svg=FIGURE
POST /runs?FROM&TO&COUNT&NURSES=2,3&--from=W
";

/// Nothing is there.
pub(crate) const UNKNOWN: &[u8] = b"not found\n";

/// It is there, but by another method.
pub(crate) const WRONG_METHOD: &[u8] =
    b"wrong method: GET shows the page, and commands are asked by POST\n";

/// Memory ran out.
pub(crate) const NO_MEMORY: &[u8] = b"refused 8 Memory\n";

/// A run that wasn't counted beforehand.
pub(crate) const UNCOUNTED: &[u8] = b"the steps of its run can't be counted\n";

/// A run has too many steps.
pub(crate) const TOO_LONG: &[u8] = b"too long: the run makes more than 50000000 steps
a smaller count is answered here, and the program planner answers this
";

/// A trace goes too far.
pub(crate) const TOO_FAR: &[u8] =
    b"too far: by the last time that is asked for, the run makes more than 250000 steps
an earlier time is answered here, and the program planner answers this
";

/// Runs have too many steps or numbers together.
pub(crate) const TOO_MANY: &[u8] =
    b"too much: the runs, each counted as the first of its point, make more than 50000000 steps together, or have more than 2000000 figures
fewer runs, fewer points or a smaller count are answered here, and the program planner answers this
";
