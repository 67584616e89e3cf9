use std::marker::Brand;
use std::sync::ledger::Ledger;

/// A ledger of one run, which knows what its machine was opened with.
pub trait Run: Ledger {
    ghost use Rattle.std.specs.Prelude.{ℤ};
    ghost use Rattle.lang_base.specs.declared.outcome.Limits.{Limits};
    ghost use Rattle.code_instrs.specs.declared.code.Code.{Code};

    ghost code: { Code };

    ghost limits: { Limits };
    /// The argument of `main`.
    ghost argument: { ℤ };
}

impl Run for Brand {
    ghost use Rattle.std.specs.Prelude.{[], pos};

    ghost code = { record { classes = []; members = []; bodies = []; sites = []; texts = []; main_class = 0; main_body = 0 } };

    ghost limits = { record { steps = 0; cells = 0 } };

    ghost argument = { pos 0 };
}
