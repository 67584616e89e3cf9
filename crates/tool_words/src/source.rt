ghost use Rattle.std.specs.Prelude.{◌≡◌, ◌≤◌, ◌<◌, ◌+◌, ◌*◌, ◌++◌, length, IfOk, OnOk};
ghost use Rattle.tool_words.specs.Demo.{demo_text, class_lines};

use crate::line::ClassLine;
use lang_base::{Bytes, NoMemory};
use std::alloc::Global;

/// The text of the demo with so many classes.
pub fn demo_source(alloc: Global, classes: u32) -> Result<Bytes, NoMemory>
    requires most { classes ≤ 200 }
    ensures text { IfOk result (λ text. text ≡ demo_text classes) }
    ensures short { IfOk result (λ text. length text ≤ 68 + 288 * classes) }
{
    let mut text = Bytes::new(alloc);
    extend(alloc, &mut text, ClassLine::Declared, classes)?;
    text.extend(b"class Main { int main(int n) {\n")?;
    extend(alloc, &mut text, ClassLine::Made, classes)?;
    text.extend(b"cobegin {\n")?;
    extend(alloc, &mut text, ClassLine::Run, classes)?;
    text.extend(b"}\n")?;
    text.extend(b"int t = 0;\n")?;
    extend(alloc, &mut text, ClassLine::Added, classes)?;
    text.extend(b"return t;\n")?;
    text.extend(b"} }\n")?;
    Ok(text)
}

/// Puts the line of each class after a text.
fn extend(alloc: Global, text: &mut Bytes, line: ClassLine, classes: u32) -> Result<(), NoMemory>
    ensures { OnOk result (text.new ≡ text.old ++ class_lines line classes) }
{
    for class in 0..classes {
        text.extend(line.text(alloc, class)?.as_bytes())?;
    }
    Ok(())
}
