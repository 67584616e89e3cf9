ghost use Rattle.std.specs.Prelude.{◌≡◌, IfOk};
ghost use Rattle.std.specs.String.{string_bytes};

use std::alloc::{AllocError, Global};

/// A line that the demo has once for each class.
#[derive(Clone, Copy, Debug, PartialEq, Eq)]
pub enum ClassLine {
    /// Its declaration.
    Declared,
    /// An object of it, and the local for its sum.
    Made,
    /// The branch that runs it.
    Run,
    /// Its sum added to the total.
    Added,
}

impl ClassLine {
    ghost use Rattle.tool_words.specs.Demo.{class_line};

    /// The line for the class of this number.
    pub fn text(self, alloc: Global, class: u32) -> Result<String, AllocError>
        ensures { IfOk result (λ line. string_bytes line ≡ class_line self class) }
    {
        match self {
            ClassLine::Declared => format!(in alloc;
                "class C{class} {{ region A; int run(int m) writes A:* {{ int[]<A:[i]>#i a = new int[m]<A:[i]>#i; \
                foreach (int i in 0, m) {{ a[i] = i + {class}; }} int j = 0; int s = 0; \
                while (j < m) {{ s = s + a[j]; j = j + 1; }} return s; }} }}\n"
            ),
            ClassLine::Made => {
                format!(in alloc; "C{class} c{class} = new C{class}(); int s{class} = 0;\n")
            }
            ClassLine::Run => format!(in alloc; "s{class} = c{class}.run(100);\n"),
            ClassLine::Added => format!(in alloc; "t = t + s{class};\n"),
        }
    }
}
