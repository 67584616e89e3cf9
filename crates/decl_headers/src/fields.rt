ghost use Rattle.std.specs.Prelude.{◌≡◌, replicate, length, slice_set, IfOk};
ghost use Rattle.std.specs.Option.{option_map_or};
ghost use Rattle.decl_headers.specs.Gathered.{is_field, field_count};
ghost use Rattle.decl_headers.specs.Numbering.{counted_at, counted_way};
ghost use Rattle.decl_headers.specs.Numbers.{as_number};
ghost use Rattle.decl_headers.specs.Rounds.{entry_of};
ghost use Rattle.decl_headers.specs.Way.{entered};

use crate::forest::Step;
use crate::numbers::number_at;
use lang_base::NoMemory;
use std::alloc::Global;
use syntax_tree::{Class, Member};

fn is_field(member: &Member) -> bool
    ensures { result ≡ is_field member.now }
{
    matches!(member, Member::Field(_))
}

fn own_fields(class: &Class) -> u32
    ensures { result ≡ as_number (field_count class.now) }
{
    number_at(
        class
            .members
            .as_slice()
            .iter()
            .filter(|member| is_field(member))
            .count(),
    )
}

/// How many fields each class has, inherited ones included. The steps go through all classes.
pub fn count_fields(
    alloc: Global,
    classes: &[Class],
    parents: &[Option<u32>],
    steps: &[Step],
) -> Result<Vec<u32>, NoMemory>
    ensures { IfOk result (λ counts. counts.items ≡ counted_way classes.now parents.now (replicate (length classes.now) 0) steps.now) }
{
    let mut counts = vec![in alloc; 0u32; classes.len()]?;
    for step in steps {
        count_step(classes, parents, counts.as_mut_slice(), *step);
    }
    Ok(counts)
}

fn count_step(classes: &[Class], parents: &[Option<u32>], counts: &mut [u32], step: Step)
    ensures { counts.new ≡ entered (counted_at classes.now parents.now) counts.old step }
{
    if let Step::Enter(number) = step {
        let count = count_at(classes, parents, counts, number);
        set_count(counts, number as usize, count);
    }
}

#[tactic(auto, using(std::proofs::lemmas::List::set_past))]
fn set_count(counts: &mut [u32], at: usize, count: u32)
    ensures { counts.new ≡ slice_set counts.old at count }
{
    if at < counts.len() {
        counts[at] = count;
    }
}

fn count_at(classes: &[Class], parents: &[Option<u32>], counts: &[u32], number: u32) -> u32
    ensures { result ≡ counted_at classes.now parents.now counts.now number }
{
    let inherited = match parents.get(number as usize).copied().flatten() {
        None => 0,
        Some(parent) => counts.get(parent as usize).copied().unwrap_or(0),
    };
    let own = match classes.get(number as usize) {
        None => 0,
        Some(class) => own_fields(class),
    };
    inherited.saturating_add(own)
}
