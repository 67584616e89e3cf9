use exec_task::Answer;
use exec_world::Event;
use lang_base::Place;

/// An event that was made.
#[derive(Drop)]
pub struct MadeEvent {
    pub event: Event,
    /// What its task was answered.
    pub answer: Answer,
    /// The place of the instruction at which the task stood, unless it was at its end.
    pub place: Option<Place>,
}
