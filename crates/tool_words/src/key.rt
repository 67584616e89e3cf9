ghost use Rattle.std.specs.Prelude.{◌≡◌, ◌++◌, codes, is_some};
ghost use Rattle.std.specs.Option.{option_map};

/// What a word may set.
#[derive(Clone, Copy, Debug, PartialEq, Eq)]
pub enum Key {
    /// How many threads work.
    Workers,
    /// The most steps that the run may cost.
    Steps,
    /// The most cells that the run may cost.
    Cells,
    /// The argument of `main`.
    Arg,
    /// How many classes a demo has.
    Number,
    /// Who makes the events of a run.
    Mode,
    /// What the order of the events is drawn by.
    Seed,
}

/// How a run is made.
#[derive(Clone, Copy, Debug, PartialEq, Eq)]
pub enum Mode {
    /// The workers make one event at a time.
    Steps,
    /// The caller makes an event of each ready task in turn.
    Rounds,
    /// The caller makes each event, of a ready task that is drawn, by this seed.
    Seeded(u32),
}

impl Key {
    ghost use Rattle.tool_words.specs.Words.{key_name, value_for};

    /// Its name with the `=` that stands before the value.
    pub fn prefix(self) -> &'static str
        ensures { result.now ≡ key_name self ++ codes "=" }
    {
        match self {
            Key::Workers => "workers=",
            Key::Steps => "steps=",
            Key::Cells => "cells=",
            Key::Arg => "arg=",
            Key::Number => "n=",
            Key::Mode => "mode=",
            Key::Seed => "seed=",
        }
    }

    /// The value that a word gives it, if the word sets this key.
    pub fn value_in(self, word: &str) -> Option<&str>
        ensures { option_map (λ value. value.now) result ≡ value_for self word.now }
    {
        word.strip_prefix(self.prefix())
    }

    /// Whether a word sets it.
    pub fn is_set_in(self, word: &str) -> bool
        ensures { result ≡ is_some (value_for self word.now) }
    {
        self.value_in(word).is_some()
    }
}
