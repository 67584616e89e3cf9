//! Soundness: a well-typed program keeps to its types and effects.
//!
//! First of each task by itself, given answers that fit (`law_expressions`, `law_statements`): from locals that fit its scope, each access
//! that it makes lies in its effects or in a local region that it has made, and in the effects with which each atomic block that it
//! stands inside was entered or in a local region that it has made since; what it writes, makes and returns has its type; it looks at nothing that
//! isn't there. Where it forks, each branch begins with locals that fit, may do no more than the construct says, and no two branches make accesses
//! that meet (`law_quiet`); so each branch is in order as a task of its own.
//!
//! Then of whole runs (`law_sound`): in each legal run, by whatever rule blocks are entered, answers do fit, so all of this holds at every moment;
//! tasks end and are joined with what has its type, what is accessed inside a block lies in the effects of its entry or in a local region made inside
//! it, and unordered events that conflict stand inside blocks, on a cell of an atomic region. No two unordered events of a program without nd
//! constructs conflict, and those blocks are kept apart (`law_runs`). And no run meets a value or an answer of a wrong kind (`law_kinds`).
//!
//! To read in this order: `Settings` (regions of a run as region paths, and what paths mean in a run), `Shapes` (which values have
//! a type), `Accesses` (which accesses effects speak of), `Scopes` and `Frames` (which locals fit), `Branches` and `Work` (when the work
//! of a task is in order), `Laws`; then `Counting` (how many local regions a task has made), `Runs`, `Soundness` and `RunLaws`; and last `Kinds` (the
//! meaning again, which looks at kinds) and `KindLaws`.
#![tactic(auto)]

pub mod laws;
