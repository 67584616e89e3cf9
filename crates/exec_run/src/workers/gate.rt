/// What each worker calls outside the lock, before each step. It promises nothing.
pub trait Gate {
    fn before(&self, worker: u32);
}

/// A gate that does nothing.
#[derive(Clone, Copy, Debug)]
pub struct NoGate;

impl Gate for NoGate {
    fn before(&self, _worker: u32) {}
}
