ghost use Rattle.std.specs.Prelude.{◌≡◌, ◌∷◌, pos};
ghost use Rattle.lang_meaning.specs.Actions.{Do, Look};
ghost use Rattle.lang_meaning.specs.Values.{Int};
ghost use Rattle.lang_meaning.specs.Counts.{number, length_seen};
ghost use Rattle.code_instrs.specs.Machine.{one, two, three, reads, writes, unless_null, Waits, next};
ghost use Rattle.exec_task.specs.Steps.{Local};
ghost use Rattle.exec_task.specs.Tasks.{plain_level};

use crate::action::{Action, Ending, Own};
use crate::step::Step;
use crate::task::Level;
use exec_frames::{number, reference};
use lang_base::{Place, Trap};

/// The end by a null.
fn null(place: Place) -> Step
    ensures { result ≡ Step.Ends (Ending.Trapped Trap.Null place) }
{
    Step::Ends(Ending::Trapped(Trap::Null, place))
}

impl Level {
    /// The read of a field.
    pub fn get(&self, place: Place, field: u32) -> Step
        ensures { Local (λ fs. one (plain_level self.now).stack (λ v st. reads place v (pos field) (plain_level self.now) st fs)) self.now result self.now }
    {
        let Some(of) = self.stack.top() else {
            return Step::Stuck;
        };
        let Some(object) = reference(of) else {
            return null(place);
        };
        Step::Waits(Action::Do(Own::Read {
            object,
            index: i64::from(field),
        }))
    }

    /// The write of a field.
    pub fn put(&self, place: Place, field: u32) -> Step
        ensures { Local (λ fs. two (plain_level self.now).stack (λ v u st. writes place v (pos field) u (plain_level self.now) st fs)) self.now result self.now }
    {
        let Some((of, value)) = self.stack.top_two() else {
            return Step::Stuck;
        };
        let Some(object) = reference(of) else {
            return null(place);
        };
        Step::Waits(Action::Do(Own::Write {
            object,
            index: i64::from(field),
            value,
        }))
    }

    /// The read of an element.
    pub fn element(&self, place: Place) -> Step
        ensures { Local (λ fs. two (plain_level self.now).stack (λ v j st. reads place v (number j) (plain_level self.now) st fs)) self.now result self.now }
    {
        let Some((of, index)) = self.stack.top_two() else {
            return Step::Stuck;
        };
        let Some(object) = reference(of) else {
            return null(place);
        };
        Step::Waits(Action::Do(Own::Read {
            object,
            index: i64::from(number(index)),
        }))
    }

    /// The write of an element.
    pub fn put_element(&self, place: Place) -> Step
        ensures { Local (λ fs. three (plain_level self.now).stack (λ v j u st. writes place v (number j) u (plain_level self.now) st fs)) self.now result self.now }
    {
        let Some((of, index, value)) = self.stack.top_three() else {
            return Step::Stuck;
        };
        let Some(object) = reference(of) else {
            return null(place);
        };
        Step::Waits(Action::Do(Own::Write {
            object,
            index: i64::from(number(index)),
            value,
        }))
    }

    /// The look at an array's length.
    pub fn length(&self, place: Place) -> Step
        ensures { Local (λ fs. one (plain_level self.now).stack (λ v st. unless_null place v (λ n. Waits (Do (Look n)) (λ a. next (plain_level self.now) (Int (pos (length_seen a)) ∷ st) fs)))) self.now result self.now }
    {
        let Some(of) = self.stack.top() else {
            return Step::Stuck;
        };
        let Some(object) = reference(of) else {
            return null(place);
        };
        Step::Waits(Action::Do(Own::Look { object }))
    }
}
