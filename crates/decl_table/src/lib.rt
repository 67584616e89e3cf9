//! The class table: the rows of fields, methods and superclasses, how they are looked up, and what a class has together with what it inherits.
//!
//! A field or a method is looked for in the class first and then in its superclasses, one after the other. What a row says is said over the
//! region parameters of the class that declares it; `args_at` gives what to put in for them. `main_class` and `main_method` find where a run
//! begins, and `check_main` says what is wrong with it.
//!
//! `find_overridden` finds what each method overrides, on one way through the classes that meets each after its superclass
//! (`specs/Visible.antt`); what this means is `specs/Overridden.antt`. `number_rows` gives each method its row: that of the method which it
//! overrides, or a new one (`specs/RowNumbers.antt`). `declared_fields` gives of each class the fields that it declares itself, and
//! `all_rows` the members in all its rows; what a class has in all is `specs/Inherited.antt`.
//!
//! A contract sees a table as its rows: `specs/Table.antt` says what each look-up answers, `specs/Places.antt` which row is found,
//! `specs/Main.antt` with what a run can begin, and `specs/Plain.antt` what a row says with plain types. That a table is that of a text is
//! said where it is made (`decl_classes`).
#![tactic(auto)]

mod beginning;
mod class_fields;
mod class_rows;
mod overridden;
mod places;
mod row_numbers;
mod rows;
mod table;

pub use beginning::{check_main, main_class, main_method};
pub use class_fields::declared_fields;
pub use class_rows::all_rows;
pub use overridden::find_overridden;
pub use places::{Places, find_places};
pub use row_numbers::number_rows;
pub use rows::{FieldRow, MethodRow, Signatures};
pub use table::Table;
