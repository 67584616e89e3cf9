//! The laws of class tables, each the clause of a function that does nothing.

ghost use Rattle.decl_laws.specs.Rows.{RowsAreGiven, MethodsStand, RowsAreKept};

/// The table gives each method its row; the method stands there in each class in which its name means it; and a class keeps
/// the rows of its superclass.
pub fn law_rows()
    ensures given { RowsAreGiven }
    ensures stand { MethodsStand }
    ensures kept { RowsAreKept }
{}
