ghost use Rattle.std.specs.Prelude.{◌≡◌, ◌==◌, ◌&&◌};
ghost use Rattle.std.specs.List.{list_any};
ghost use Rattle.lang_base.specs.Types.{plain_type};
ghost use Rattle.decl_headers.specs.Faults.{all_noted};
ghost use Rattle.decl_table.specs.Main.{is_spelled, is_int, takes_int, is_main, begins_runs, main_class, main_method, main_faults};

use crate::rows::MethodRow;
use crate::table::Table;
use decl_headers::{Faults, Header};
use lang_base::{Bytes, Kind, Place, Ty};

/// The first place of a text.
const START: Place = Place { line: 1, col: 1 };

/// The class `Main`, with which a run begins.
pub fn main_class(table: &Table) -> Option<u32>
    ensures { result ≡ main_class table.now }
{
    let headers = table.headers();
    headers.main_name().and_then(|name| headers.class(name))
}

/// Its method `main`, by its number.
pub fn main_method(table: &Table, names: &[Bytes]) -> Option<u32>
    ensures { result ≡ main_method table.now names.now }
{
    let class = main_class(table)?;
    for row in table.methods() {
        if row.owner == class && is_main(row, names) {
            return Some(row.id);
        }
    }
    None
}

/// Notes that there is no class `Main`, or that it isn't one that a run can begin with.
pub fn check_main(table: &Table, names: &[Bytes], faults: &mut Faults)
    ensures { faults.new ≡ all_noted faults.old (main_faults table.now names.now) }
{
    let headers = table.headers();
    let Some(class) = main_class(table) else {
        faults.note(Kind::Main, START);
        return;
    };
    let Some(header) = headers.header(class) else {
        return;
    };
    if !begins_runs(table, class, header, names) {
        faults.note(Kind::Main, header.place);
    }
}

/// Whether the class has neither region parameters nor a constructor, and declares `int main(int)` itself.
fn begins_runs(table: &Table, class: u32, header: &Header, names: &[Bytes]) -> bool
    ensures { result ≡ begins_runs table.now class header.now names.now }
{
    header.params.len() == 0
        && table.constructor(class).is_none()
        && declares_main(table.methods(), class, names)
}

/// Whether one of the methods is an `int main(int)` of the class.
fn declares_main(methods: &[MethodRow], class: u32, names: &[Bytes]) -> bool
    ensures { result ≡ list_any (λ row. (row.owner == class) && is_main names.now row) methods.now }
{
    methods
        .iter()
        .any(|row| row.owner == class && is_main(row, names))
}

/// Whether a method is `int main(int)` without region parameters.
fn is_main(row: &MethodRow, names: &[Bytes]) -> bool
    ensures { result ≡ is_main names.now row.now }
{
    is_spelled(names, row.name, b"main".as_slice())
        && !row.is_constructor
        && row.regions.len() == 0
        && is_int(&row.result)
        && takes_int(row.params.as_slice())
}

fn is_spelled(names: &[Bytes], name: u32, text: &[u8]) -> bool
    ensures { result ≡ is_spelled names.now name text.now }
{
    match names.get(name as usize) {
        Some(spelling) => spelling.as_slice() == text,
        None => false,
    }
}

fn is_int(ty: &Ty) -> bool
    ensures { result ≡ is_int (plain_type ty.now) }
{
    matches!(ty, Ty::Int)
}

fn takes_int(params: &[Ty]) -> bool
    ensures { result ≡ takes_int params.now }
{
    match params {
        [only] => is_int(only),
        _ => false,
    }
}
