use exec_machine::Machine;
use lang_base::Items;

/// What a call of the whole tool keeps of its run.
#[derive(Drop)]
pub struct Record {
    /// The finished machine.
    pub machine: Machine,
    /// How many events each worker made.
    pub shares: Items<u64>,
    /// How many events the caller made itself.
    pub own: u64,
    /// How many rounds it was made by, 0 where it wasn't made in rounds.
    pub rounds: u64,
}
