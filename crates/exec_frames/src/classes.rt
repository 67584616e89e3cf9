ghost use Rattle.std.specs.Prelude.{◌≡◌, length, map, option_map, IfOk};
ghost use Rattle.lang_meaning.specs.Counts.{is_below, class_entered};
ghost use Rattle.lang_meaning.specs.Regions.{handed_up, regions_above};
ghost use Rattle.lang_typed.specs.Plain.{plain_program};
ghost use Rattle.lang_typed.specs.Scope.{constructor_of};
ghost use Rattle.exec_frames.specs.Names.{Reading, names_by, region_by};
ghost use Rattle.exec_frames.specs.Classes.{seen_by, plain_superclass};

use crate::frame::Frame;
use crate::regions::concrete_all;
use lang_base::{Items, NoMemory, Region, Rpl};
use lang_typed::Program;
use std::alloc::Global;

/// A class with its region arguments.
#[derive(Drop)]
pub struct Seen {
    pub class: u32,
    pub regions: Items<Region>,
}

/// The superclass of a class, and what is handed to it.
#[derive(Clone, Copy)]
pub struct Superclass<'a> {
    pub class: u32,
    pub args: &'a Items<Rpl>,
}

/// A table of classes, each with its superclass.
pub trait Classes {
    ghost use Rattle.std.specs.Prelude.{ℕ, Option};
    ghost use Rattle.lang_typed.specs.Plain.{PlainParent};

    /// How many classes there are.
    ghost count: { Self → ℕ };

    /// The superclass of a class.
    ghost parent_of: { Self → ℕ → Option PlainParent };

    fn class_count(&self) -> usize
        ensures { result ≡ count self.now };

    fn superclass(&self, class: u32) -> Option<Superclass<'_>>
        ensures { option_map plain_superclass result ≡ parent_of self.now class };
}

impl Classes for Program {
    ghost use Rattle.std.specs.Prelude.{length};
    ghost use Rattle.lang_typed.specs.Plain.{plain_program};
    ghost use Rattle.lang_typed.specs.Scope.{parent_of as its_parent};

    ghost count = { λ p. length p.classes };

    ghost parent_of = { λ p. its_parent (plain_program p) };

    fn class_count(&self) -> usize {
        self.classes.len()
    }

    fn superclass(&self, class: u32) -> Option<Superclass<'_>> {
        let parent = self.classes.get(class as usize)?.parent.as_ref()?;
        Some(Superclass {
            class: parent.class.number,
            args: &parent.args,
        })
    }
}

/// The constructor of a class.
pub fn constructor_of(program: &Program, class: u32) -> Option<u32>
    ensures { result ≡ constructor_of (plain_program program.now) class }
{
    let constructor = program.classes.get(class as usize)?.constructor?;
    Some(constructor.number)
}

/// Whether a class is another or below it.
fn is_below<C: Classes>(classes: &C, class: u32, above: u32) -> bool
    ensures { result ≡ is_below (C.parent_of classes.now) (C.count classes.now) class above }
{
    let mut at = class;
    for up in 0..classes.class_count() {
        if at == above {
            return true;
        }
        let Some(parent) = classes.superclass(at) else {
            return false;
        };
        at = parent.class;
    }
    at == above
}

/// The class whose row is entered where a look at the receiver saw this: the static class, where it is none that is it or
/// below it.
pub fn class_entered<C: Classes>(alloc: Global, classes: &C, class: u32, seen: Option<Seen>) -> Seen
    ghost reading: { Reading }
    ensures { seen_by reading result ≡ class_entered (C.parent_of classes.now) (C.count classes.now) class (option_map (seen_by reading) seen) }
{
    let Some(seen) = seen else {
        return Seen {
            class,
            regions: Items::new(alloc),
        };
    };
    if is_below(classes, seen.class, class) {
        return seen;
    }
    Seen {
        class,
        regions: seen.regions,
    }
}

/// The regions of a class as those of a class above it.
pub fn regions_above<C: Classes>(
    alloc: Global,
    classes: &C,
    class: u32,
    regions: Items<Region>,
    above: u32,
) -> Result<Items<Region>, NoMemory>
    ghost reading: { Reading }
    ensures { IfOk result (λ rs. map (region_by reading) rs ≡ regions_above (names_by reading) (C.parent_of classes.now) (C.count classes.now) class (map (region_by reading) regions) above) }
{
    let mut at = class;
    let mut regions = regions;
    for up in 0..classes.class_count() {
        if at == above {
            return Ok(regions);
        }
        let Some(parent) = classes.superclass(at) else {
            return Ok(regions);
        };
        regions = handed_up(alloc, regions, parent.args)?;
        at = parent.class;
    }
    Ok(regions)
}

/// What a class hands to its superclass. It speaks of parameters and names alone.
fn handed_up(
    alloc: Global,
    regions: Items<Region>,
    args: &Items<Rpl>,
) -> Result<Items<Region>, NoMemory>
    ghost reading: { Reading }
    ensures { IfOk result (λ rs. map (region_by reading) rs ≡ handed_up (names_by reading) (map (region_by reading) regions) args.now) }
{
    let frame = Frame {
        values: Items::new(alloc),
        regions,
        locals: Items::new(alloc),
        left: 0,
    };
    concrete_all(alloc, &frame, args)
}
