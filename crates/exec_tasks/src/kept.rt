ghost use Rattle.std.specs.Prelude.{◌≡◌, IfOk};
ghost use Rattle.std.specs.Borrow.{Lends, sem};
ghost use Rattle.exec_tasks.specs.contracts.kept.Kept.{the_row};

use lang_base::NoMemory;
use std::alloc::Global;
use std::marker::Model;

/// A value in memory of its own, where it can be changed. A contract sees the value alone.
#[derive(Debug, Drop)]
pub struct Kept<T> {
    inner: Box<T>,
}

impl<T> Model for Kept<T> {
    ghost use Rattle.std.specs.Prelude.{◌≡◌};

    ghost Value = { T };

    ghost coded = { T.code };

    ghost view = { λ kept. kept.inner.value };
}

impl<T> Kept<T> {
    pub fn get(&self) -> &T
        ensures { result.now ≡ self.now }
    {
        &self.inner
    }

    pub fn get_mut(&mut self) -> &mut T
        ensures* lends { sem 𝓛 (Lends (the_row T.row) T.row self.entry result (λ w. w)) }
        ensures value { result.now ≡ self.old }
    {
        self.inner.as_mut()
    }

    /// The value, out of its memory.
    pub fn into_inner(self) -> T
        ensures { result ≡ self }
    {
        let Kept { inner } = self;
        Box::into_inner(inner)
    }
}

impl<T: Drop> Kept<T> {
    pub fn new(alloc: Global, value: T) -> Result<Kept<T>, NoMemory>
        ensures { IfOk result (λ kept. kept ≡ value) }
    {
        Ok(Kept {
            inner: Box::new(alloc, value)?,
        })
    }
}
