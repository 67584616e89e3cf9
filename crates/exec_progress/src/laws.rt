//! The law of compiled code, the clause of a function that does nothing.

ghost use Rattle.exec_progress.specs.Progress.{CodeMakesProgress};

/// The code of a resolved program that has a `main` goes on, within each limit of steps that a job may have.
pub fn law_code_progress()
    ensures goes { CodeMakesProgress }
{}
