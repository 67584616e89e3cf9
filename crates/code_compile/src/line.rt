use code_instrs::Instr;
use lang_base::Place;

/// An instruction, and the place at which its trap is reported.
#[derive(Clone, Copy, Debug, PartialEq, Eq)]
pub struct Line {
    pub instr: Instr,
    pub place: Place,
}

/// An instruction that has a site.
#[derive(Clone, Copy, Debug, PartialEq, Eq)]
pub enum Sited {
    Call,
    New,
    Array,
    Fork,
    Spread,
    Enter,
}

impl Sited {
    ghost use Rattle.std.specs.Prelude.{◌≡◌};
    ghost use Rattle.code_compile.specs.Emitted.{instr_at};

    /// The instruction with this site.
    pub fn at(self, site: usize) -> Instr
        ensures { result ≡ instr_at self site }
    {
        match self {
            Sited::Call => Instr::Call(site),
            Sited::New => Instr::New(site),
            Sited::Array => Instr::Array(site),
            Sited::Fork => Instr::Fork(site),
            Sited::Spread => Instr::Spread(site),
            Sited::Enter => Instr::Enter(site),
        }
    }
}
