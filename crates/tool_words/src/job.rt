ghost use Rattle.std.specs.Prelude.{◌≡◌, map, codes, Some, IfOk};
ghost use Rattle.std.specs.Result.{result_ok};
ghost use Rattle.std.specs.String.{string_bytes};
ghost use Rattle.std.specs.List.{list_all};
ghost use Rattle.tool_words.specs.Words.{sets_key_of};
ghost use Rattle.tool_words.specs.Jobs.{job, fields_job, IsInRange};

use crate::command::Command;
use crate::key::{Key, Mode};
use crate::setting::{arg_set, mode_set, number_set};
use std::error::Error;
use std::fmt;

/// What the words ask for. A key that they don't set has its default.
#[derive(Clone, Copy, Debug, PartialEq, Eq)]
pub struct Job {
    pub command: Command,
    /// Threads, 1 to 64.
    pub workers: u32,
    /// The limit of steps, 1 to 20000000.
    pub steps: u64,
    /// The limit of cells, 1 to 16777216.
    pub cells: u64,
    /// The argument of `main`.
    pub arg: i32,
    /// Classes of a demo, 1 to 200.
    pub n: u32,
    pub mode: Mode,
}

/// The words give no job.
#[derive(Clone, Copy, Debug, PartialEq, Eq)]
pub struct Usage;

/// How the program is called.
impl fmt::Display for Usage {
    ghost output = { λ _. Some (codes "usage: dpj COMMAND [NAME=VALUE]...") };

    fn fmt<W: fmt::Write>(&self, f: &mut fmt::Formatter<W>) -> fmt::Result {
        f.write_str("usage: dpj COMMAND [NAME=VALUE]...")
    }
}

impl Error for Usage {}

/// The job that words give by the tables of commands and keys; `Usage` exactly where they give none. It takes no memory.
pub fn read_words(words: &[String]) -> Result<Job, Usage>
    ensures given { result_ok result ≡ job (map string_bytes words.now) }
    ensures in_range { IfOk result IsInRange }
{
    let (first, settings) = words.split_first().ok_or(Usage)?;
    let command = Command::named(first.as_str()).ok_or(Usage)?;
    if !all_set_keys(command, settings) {
        return Err(Usage);
    }
    read_settings(command, settings)
}

// Whether each word sets a key of the command.
fn all_set_keys(command: Command, settings: &[String]) -> bool
    ensures { result ≡ list_all (sets_key_of command) (map string_bytes settings.now) }
{
    for word in settings {
        if !sets_key(command, word.as_str()) {
            return false;
        }
    }
    true
}

fn sets_key(command: Command, word: &str) -> bool
    ensures { result ≡ sets_key_of command word.now }
{
    command.keys().iter().any(|key| key.is_set_in(word))
}

fn read_settings(command: Command, settings: &[String]) -> Result<Job, Usage>
    ensures given { result_ok result ≡ fields_job (map string_bytes settings.now) command }
    ensures in_range { IfOk result IsInRange }
{
    Ok(Job {
        command,
        workers: number_set(settings, Key::Workers, 1, 64, 4)? as u32,
        steps: number_set(settings, Key::Steps, 1, 20000000, 5000000)?,
        cells: number_set(settings, Key::Cells, 1, 16777216, 1048576)?,
        arg: arg_set(settings)?,
        n: number_set(settings, Key::Number, 1, 200, 8)? as u32,
        mode: mode_set(command, settings)?,
    })
}
