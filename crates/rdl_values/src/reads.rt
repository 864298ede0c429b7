//! The parameters that a default names, with their values.

ghost use Rattle.std.specs.Prelude.{◌≡◌, ◌∷◌, [], ℕ, IfOk, OnOk, option_to_list, take};
ghost use Rattle.rdl_values.specs.Parameters.{Bound as BoundOf};
ghost use Rattle.rdl_values.specs.Values as values;
ghost use Rattle.rdl_values.specs.Over.{IsOver};
ghost use Rattle.rdl_values.specs.Overlaid.{Plain, names_in, overlaid};
ghost use Rattle.rdl_values.specs.Reads.{AreReads, Reads};

use crate::constants::bare_name;
use crate::parameters::Parameters;
use crate::table::Table;
use rb_base::NoMemory;
use rdl_tree::{Expr, Name, Path};
use std::alloc::Global;

// Puts the parameter of a name into a table, if it is seen.
fn read_name<'a>(
    table: &mut Table<'a>,
    name: &Name<'a>,
    parameters: &Parameters<'a>,
) -> Result<(), NoMemory>
    ensures enums { table.new.enums ≡ table.old.enums }
    ensures read_ { OnOk result ((xs : Plain) (k : ℕ) (t : BoundOf) → IsOver parameters.now xs k t → Reads (overlaid (take k xs) t) (name.now ∷ []) table.old.bound table.new.bound) }
{
    match parameters.value(name.text) {
        Some(value) => table.add(name.text, value),
        None => Ok(()),
    }
}

// Puts the parameter that a path names into a table.
fn read_path<'a>(
    table: &mut Table<'a>,
    path: &Path<'a>,
    item: &Option<Name<'a>>,
    parameters: &Parameters<'a>,
) -> Result<(), NoMemory>
    ensures enums { table.new.enums ≡ table.old.enums }
    ensures read_ { OnOk result ((xs : Plain) (k : ℕ) (t : BoundOf) → IsOver parameters.now xs k t → Reads (overlaid (take k xs) t) (option_to_list (values.bare_name path.now item.now)) table.old.bound table.new.bound) }
{
    match bare_name(path, item) {
        Some(name) => read_name(table, &name, parameters),
        None => Ok(()),
    }
}

// Puts the parameters that an expression names into a table. It recurses as deep as the tree goes.
fn read<'a>(
    table: &mut Table<'a>,
    expr: &Expr<'a>,
    parameters: &Parameters<'a>,
) -> Result<(), NoMemory>
    ensures enums { table.new.enums ≡ table.old.enums }
    ensures read_ { OnOk result ((xs : Plain) (k : ℕ) (t : BoundOf) → IsOver parameters.now xs k t → Reads (overlaid (take k xs) t) (names_in expr.now) table.old.bound table.new.bound) }
{
    match expr {
        Expr::Number(..) | Expr::Flag(..) | Expr::Str(..) | Expr::EntryOf(..) => Ok(()),
        Expr::Ref(path, item) => read_path(table, path, item, parameters),
        Expr::Not(operand, _) => read(table, operand, parameters),
        Expr::Binary(_, left, right, _) => {
            read(table, left, parameters)?;
            read(table, right, parameters)
        }
        Expr::Pick(test, chosen, other, _) => {
            read(table, test, parameters)?;
            read(table, chosen, parameters)?;
            read(table, other, parameters)
        }
    }
}

/// The parameters that an expression names, with their values: it has the same value behind these as behind all that are seen.
pub fn reads_of<'a>(
    alloc: Global,
    expr: &Expr<'a>,
    parameters: &Parameters<'a>,
) -> Result<Table<'a>, NoMemory>
    ensures { IfOk result (λ table. (xs : Plain) (k : ℕ) (t : BoundOf) → IsOver parameters.now xs k t → AreReads (overlaid (take k xs) t) expr.now table) }
{
    let mut table = Table::new(alloc);
    read(&mut table, expr, parameters)?;
    Ok(table)
}
