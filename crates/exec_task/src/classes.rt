ghost use Rattle.std.specs.Prelude.{◌≡◌};
ghost use Rattle.code_instrs.specs.Plain.{plain_code, constructor_of};

use code_instrs::Code;
use exec_frames::{Classes, Superclass};

/// The classes of code.
#[derive(Clone, Copy)]
pub struct CodeClasses<'a> {
    pub code: &'a Code,
}

impl Classes for CodeClasses<'_> {
    ghost use Rattle.std.specs.Prelude.{length};
    ghost use Rattle.code_instrs.specs.Plain.{plain_code, parent_of as its_parent};

    ghost count = { λ c. length c.code.now.classes };

    ghost parent_of = { λ c. its_parent (plain_code c.code.now) };

    fn class_count(&self) -> usize {
        self.code.classes.len()
    }

    fn superclass(&self, class: u32) -> Option<Superclass<'_>> {
        let row = self.code.classes.get(class as usize)?;
        Some(Superclass {
            class: row.parent?,
            args: &row.args,
        })
    }
}

/// The body of the constructor of a class.
pub fn constructor_of(code: &Code, class: u32) -> Option<usize>
    ensures { result ≡ constructor_of (plain_code code.now) class }
{
    code.classes.get(class as usize)?.constructor
}
