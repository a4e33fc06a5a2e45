//! What the program says of itself.

/// How the program is used.
pub const HELP: &[u8] = b"planner: what planners ask of a queueing model (docs/planner.md)

A model is a text in GPSS, as those in examples/. The launcher ./planner takes its file as
the second word; without it the program reads the model from standard input.

  planner explain MODEL               what is wrong, on which line, and how to mend it;
                                      or what is in a model, or an object, that is accepted
  planner explain CODE                what the code of a refusal means, and how to mend it
  planner list MODEL                  the listed object code, of a model or of an object
  planner trace MODEL FROM TO         the steps of the run from one clock time to another
  planner chart MODEL [FROM TO]       a picture (SVG) of what is where over time, from one
                                      clock time to another, or of the whole run;
                                      [--name TEXT] says whose run it is
  planner points MODEL [FROM TO]      what the picture's lines show, as records with commas
  planner convert MODEL               a text of GPSS World, written in this language
  planner report MODEL [SEED COUNT]   the report of the run, with another seed and
                                      termination count, or with the model's own
  planner study MODEL RUNS [COUNT]    so many runs with other random numbers, 1 to 512:
                                      each figure's mean, least, greatest, and how sure
  planner study MODEL RUNS NURSES=2,3 the same with other numbers on the line NURSES STORAGE,
                                      NURSES EQU or INITIAL X$NURSES, and the differences
  planner compare A B RUNS [COUNT]    two models beside one another, run by run
  planner runs MODEL FROM TO [COUNT]  a row of CSV for each run FROM, .. TO - 1, exactly
  planner shard MODEL K/N             the rows of share K = 0, .. N - 1 of the experiment
                                      that lines *! of the model ask for
  planner summary ROWS [--all]        the study of such rows, from any machines
  planner object MODEL RUN [COUNT]    the object of one run of a study, for gpssw run 0 0
  planner help                        this
  planner --version                   which version it is

Behind the numbers of study and compare, in any order:
  --from W      figures from the W-th counted transaction on: the start is left out
  --seeds K     the K-th study of so many runs: others than those of the first
  --workers N   so many at work, 1 to 16; else as many as there are processors
  --all         all figures, with those of blocks, switches and chains
  --csv         records with commas between (RFC 4180)
  --svg FIGURE  a picture of one figure over the points: its means and how sure

Status: 0 where the answer came, 1 where the model was refused, 2 on other words, 3 where
a file, a read or a write failed, 4 where memory ran out.
";

/// The version.
pub const VERSION: &[u8] = b"planner 1\n";

/// The line on wrong words.
pub const USAGE: &[u8] =
    b"usage: planner explain [CODE] | list | trace FROM TO | chart [FROM TO] [--name TEXT] | points [FROM TO] | convert | report [SEED COUNT] | study RUNS [COUNT] [NAME=K,..] [NAME=K,..] [--from W] [--seeds K] [--workers N] [--all] [--csv | --svg FIGURE] | compare RUNS [COUNT] [options of study] | runs FROM TO [COUNT] [NAME=K,..] [NAME=K,..] [--from W] [--workers N] | shard K/N [--workers N] | summary [--seeds K] [--all] | object RUN [COUNT] [NAME=K] [NAME=K] | help | --version\n";
