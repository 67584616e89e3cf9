ghost use Rattle.std.specs.Prelude.{◌≡◌};

use crate::key::Key;

/// What the program can be asked to do.
#[derive(Clone, Copy, Debug, PartialEq, Eq)]
pub enum Command {
    /// Checks the text.
    Check,
    /// Checks, compiles and runs.
    Run,
    /// Checks, and runs the serial elision.
    Elide,
    /// Checks, compiles and lists the code.
    List,
    /// Makes a text, checks and runs it.
    Demo,
    /// Runs, and writes the trace of the run.
    Trace,
    /// Runs, and writes the events of the run.
    Events,
    /// Reads a trace, and runs its schedule.
    Replay,
    /// Checks, and writes the inferred summaries.
    Effects,
    /// Checks, runs in rounds, and tells what the run has cost.
    Cost,
}

const COMMANDS: [Command; 10] = [
    Command::Check,
    Command::Run,
    Command::Elide,
    Command::List,
    Command::Demo,
    Command::Trace,
    Command::Events,
    Command::Replay,
    Command::Effects,
    Command::Cost,
];

impl Command {
    ghost use Rattle.tool_words.specs.Words.{command_name, command_named, keys_of};

    /// The word that asks for it.
    pub fn name(self) -> &'static str
        ensures { result.now ≡ command_name self }
    {
        match self {
            Command::Check => "check",
            Command::Run => "run",
            Command::Elide => "elide",
            Command::List => "list",
            Command::Demo => "demo",
            Command::Trace => "trace",
            Command::Events => "events",
            Command::Replay => "replay",
            Command::Effects => "effects",
            Command::Cost => "cost",
        }
    }

    /// The command that a word asks for, if any.
    pub fn named(word: &str) -> Option<Command>
        ensures { result ≡ command_named word.now }
    {
        COMMANDS
            .iter()
            .copied()
            .find(|command| command.name() == word)
    }

    /// The keys that may stand after it.
    pub fn keys(self) -> &'static [Key]
        ensures { result.now ≡ keys_of self }
    {
        match self {
            Command::Run => &[
                Key::Workers,
                Key::Steps,
                Key::Cells,
                Key::Arg,
                Key::Mode,
                Key::Seed,
            ],
            Command::Trace | Command::Events => {
                &[Key::Workers, Key::Steps, Key::Cells, Key::Arg, Key::Seed]
            }
            Command::Elide | Command::Cost => &[Key::Steps, Key::Cells, Key::Arg],
            Command::Demo => &[Key::Workers, Key::Steps, Key::Cells, Key::Number],
            Command::Check | Command::List | Command::Replay | Command::Effects => &[],
        }
    }
}
