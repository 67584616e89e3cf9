/// What an instruction of values and jumps comes to, which touches nothing but the stack and the slots of its level. It is
/// small, since most instructions are such.
#[derive(Clone, Copy, Debug, PartialEq, Eq)]
pub enum LocalStep {
    /// The next instruction.
    Goes,
    /// The next instruction, after a tick.
    Ticks,
    /// A division by zero.
    Divides,
    /// It doesn't fit. Fit code never comes to it.
    Stuck,
    /// There is no memory for it.
    Full,
    /// It is another instruction.
    Other,
}
