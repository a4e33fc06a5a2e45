//! What the page may be asked of a model.

ghost use Rattle.std.specs.Prelude.{◌≡◌, true, option_map, IfSome};
ghost use Rattle.gw_command_line.specs.Asking.{MayBeCarriedOut};
ghost use Rattle.gw_command_line.specs.Options.{view};
ghost use Rattle.gw_command_line.specs.Words.{act_of};
ghost use Rattle.gw_page.specs.Inquiries.{by_one_worker, is_offered, offered_act};

use gw_command_line::{Command, Options, Runs, Study};

/// The same options with one worker.
fn with_one_worker(options: Options<'_>) -> Options<'_>
    ensures { view result ≡ by_one_worker (view options.entry) }
{
    let mut options = options;
    options.workers = Some(1);
    options
}

/// A command as the page carries it out, by one worker, if the page offers it.
pub(crate) fn inquiry_of(command: Command<'_>) -> Option<Command<'_>>
    requires { MayBeCarriedOut command }
    ensures asked { option_map act_of result ≡ offered_act (act_of command.entry) }
    ensures fit { IfSome result MayBeCarriedOut }
    ensures offered { IfSome result (λ command. is_offered (act_of command) ≡ true) }
{
    match command {
        Command::Ask(_) | Command::Chart(_) | Command::Code(_) => Some(command),
        Command::Study(study) => Some(Command::Study(Study {
            options: with_one_worker(study.options),
            ..study
        })),
        Command::Runs(runs) => Some(Command::Runs(Runs {
            options: with_one_worker(runs.options),
            ..runs
        })),
        Command::Help
        | Command::Version
        | Command::Compare(_)
        | Command::Summary(_)
        | Command::Object(_)
        | Command::Shard(_) => None,
    }
}
