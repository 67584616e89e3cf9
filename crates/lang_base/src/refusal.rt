ghost use Rattle.std.specs.Prelude.{◌≡◌, Some};

use crate::memory::NoMemory;
use crate::place::Place;
use std::fmt;

/// Why a text is refused. `docs/REFUSALS.md` of the repository explains each to its reader. Among faults of one place
/// the one that stands first here is reported.
#[derive(Clone, Copy, Debug, PartialEq, Eq, PartialOrd, Ord)]
pub enum Kind {
    /// More bytes than a text may have.
    TooLong,
    /// Not a text of the grammar.
    Syntax,
    /// An int literal with a leading zero, or over 2147483647.
    Number,
    /// Nested, joined or suffixed more than 32 times.
    Nest,
    /// A second declaration of one name.
    Duplicate,
    /// A name that nothing declares.
    Unknown,
    /// A class that is its own superclass.
    Cycle,
    /// No `Main` with an `int main(int)`.
    Main,
    /// A value of another type than asked.
    Type,
    /// Region arguments of a wrong number or form.
    RegionArgs,
    /// A method that doesn't fit the one that it overrides.
    Override,
    /// A `return` missing, misplaced, or followed by a statement.
    Return,
    /// An assignment that isn't allowed there.
    Assign,
    /// A use through a receiver whose region isn't known exactly.
    PartialWrite,
    /// A constraint that doesn't hold.
    Constraint,
    /// A body with effects that its summary doesn't cover.
    Summary,
    /// A summary that the overridden method's doesn't cover.
    OverrideEffect,
    /// Branches that interfere.
    Interferes,
    /// Branches of an nd construct that interfere.
    InterferesNd,
    /// An nd construct inside an atomic block.
    AtomicBody,
    /// A local region where it may not be named.
    LocalRegion,
    /// Not a trace.
    Trace,
    /// A schedule that the program can't follow.
    Schedule,
}

/// A refused text: why, and where.
#[derive(Clone, Copy, Debug, PartialEq, Eq)]
pub struct Refusal {
    pub kind: Kind,
    pub place: Place,
}

/// Why a pass over a text stopped before its end.
#[derive(Clone, Copy, Debug, PartialEq, Eq)]
pub enum Stop {
    Refused(Refusal),
    NoMemory,
}

impl From<NoMemory> for Stop {
    ghost use Rattle.std.specs.Prelude.{◌≡◌};
    ghost use Rattle.lang_base.specs.declared.refusal.Stop.TheVariants.{NoMemory};

    ghost from_gives = { λ _ stop. stop ≡ NoMemory };

    fn from(_error: NoMemory) -> Stop {
        Stop::NoMemory
    }
}

impl Kind {
    ghost use Rattle.lang_base.specs.Text.{kind_name};

    /// The name that a report gives it.
    pub fn name(self) -> &'static str
        ensures { result.now ≡ kind_name self }
    {
        match self {
            Kind::TooLong => "too-long",
            Kind::Syntax => "syntax",
            Kind::Number => "number",
            Kind::Nest => "nest",
            Kind::Duplicate => "duplicate",
            Kind::Unknown => "unknown",
            Kind::Cycle => "cycle",
            Kind::Main => "main",
            Kind::Type => "type",
            Kind::RegionArgs => "region-args",
            Kind::Override => "override",
            Kind::Return => "return",
            Kind::Assign => "assign",
            Kind::PartialWrite => "partial-write",
            Kind::Constraint => "constraint",
            Kind::Summary => "summary",
            Kind::OverrideEffect => "override-effect",
            Kind::Interferes => "interferes",
            Kind::InterferesNd => "interferes-nd",
            Kind::AtomicBody => "atomic-body",
            Kind::LocalRegion => "local-region",
            Kind::Trace => "trace",
            Kind::Schedule => "schedule",
        }
    }
}

impl fmt::Display for Kind {
    ghost use Rattle.lang_base.specs.Text.{kind_name};

    ghost output = { λ kind. Some (kind_name kind) };

    fn fmt<W: fmt::Write>(&self, f: &mut fmt::Formatter<W>) -> fmt::Result {
        f.write_str(self.name())
    }
}

/// `line:col name`.
impl fmt::Display for Refusal {
    ghost use Rattle.lang_base.specs.Text.{refusal_text};

    ghost output = { λ refusal. Some (refusal_text refusal) };

    fn fmt<W: fmt::Write>(&self, f: &mut fmt::Formatter<W>) -> fmt::Result {
        let place = self.place;
        let kind = self.kind;
        write!(f, "{place} {kind}")
    }
}
