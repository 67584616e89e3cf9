ghost use Rattle.std.specs.Prelude.{◌≡◌, IfOk};
ghost use Rattle.std.specs.Option.{option_copied};
ghost use Rattle.code_instrs.specs.declared.code.Title.TheVariants as title;
ghost use Rattle.code_compile.specs.Titles.{member_title, name_of};

use code_instrs::Title;
use lang_base::{Bytes, NoMemory, Plain};
use lang_typed::{Class, Member};
use std::alloc::Global;

/// What the listing says in front of a member: its class and its name, with a dot between them.
pub fn member_title(
    alloc: Global,
    owner: Option<&Class>,
    member: &Member,
) -> Result<Title, NoMemory>
    ensures { IfOk result (λ made. made ≡ title.Member (member_title (name_of (option_copied owner.entry)) member.now.name)) }
{
    let mut text = match owner {
        None => Bytes::new(alloc),
        Some(class) => class.name.copy(alloc)?,
    };
    text.push(b'.')?;
    text.extend(member.name.as_slice())?;
    Ok(Title::Member(text))
}
