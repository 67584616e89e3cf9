//! The laws of accepted programs, each the clause of a function that does nothing.

ghost use Rattle.sound_bodies.specs.Laws.{AcceptedIsWellTyped, SubtypesAgree, TypesAgree, ExpressionsAgree, SinglesAgree, EffectsAreInScope, BlocksAgree};
ghost use Rattle.sound_bodies.specs.Whole.{BodiesPass, ForksAreReported, NoneForks, SignaturesNameNothing, SupersAreReported, TablesTell};

use sound_decls::laws::{law_declared, law_inherits, law_main};

/// Where a value fits for the checker, its type is a subtype in the judgement.
pub fn law_subtypes()
    ensures subtypes { SubtypesAgree }
{}

/// A written type of which no fault is reported is good, where what is around it for the checker is in scope.
pub fn law_types()
    ensures types { TypesAgree }
{}

/// An expression that passes has its type in the judgement, where what is around it for the checker is in scope there,
/// and where the class table tells what the program has.
pub fn law_expressions()
    ensures expressions { ExpressionsAgree }
{}

/// A statement passes in the judgement that assigns to a local, calls, creates, returns a value or prints one, under the same
/// premises.
pub fn law_singles()
    ensures singles { SinglesAgree }
{}

/// Statements that pass in the judgement read and write nothing but what is in scope, and what they do through a part of an array
/// they do to its path.
pub fn law_scopes()
    ensures scopes { EffectsAreInScope }
{}

/// The statements of a block that pass do so in the judgement, with the effects that the checker gathers, where what is asked of
/// their place holds: what is around them for the checker is in scope, and signatures name nothing of a body.
pub fn law_blocks()
    ensures blocks { BlocksAgree }
{}

/// What the class table of an accepted program says of a name is so in its typed program, each superclass of the table is that of
/// the typed program, and its signatures name neither index variables nor local regions.
pub fn law_table()
    ensures tells { TablesTell }
    ensures supers { SupersAreReported }
    ensures signed { SignaturesNameNothing }
{}

/// A method in whose body the checker finds that an nd construct is reached is one of which the class table tells so; and where a
/// program has no nd construct, it tells so of none.
pub fn law_forks()
    ensures forks { ForksAreReported }
    ensures none { NoneForks }
{}

/// The body of each member of an accepted program passes in the judgement, does no more than its summary says, and gives a value
/// where it should.
pub fn law_bodies()
    ensures bodies { BodiesPass }
{}

/// What the checker accepts is well typed.
pub fn law_well_typed()
    ensures well_typed { AcceptedIsWellTyped }
{
    law_declared();
    law_inherits();
    law_main();
}
