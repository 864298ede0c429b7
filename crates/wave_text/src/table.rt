//! A table, from its first line to its last.

ghost use Rattle.std.specs.Prelude.{◌≤◌, OnOk, OnErr};
ghost use Rattle.rb_edge.specs.Count.{Rose};
ghost use Rattle.rb_edge.specs.Sink.{Takes, TakesPart};
ghost use Rattle.rb_edge.specs.Flows.{Flows};
ghost use Rattle.report_text.specs.Printed.{printed_run};

use crate::lines::{put_names, put_row};
use rb_edge::{Failed, Page, Sink};
use vcd_reader::Waves;

// Puts the names of the variables and then the rows.
fn put_table<K: Sink>(page: &mut Page, out: &mut K, waves: &Waves) -> Result<(), Failed>
    ensures { Flows (K.told out.old) (K.told out.new) (K.faults out.old) (K.faults out.new)
        page.old page.new result (printed_run waves.now.pins waves.now.rows) }
{
    put_names(page, out, waves.pins())?;
    for row in 0..waves.rows() {
        put_row(page, out, waves, row)?;
    }
    Ok(())
}

/// Writes a table in the layout of a run: the names of its variables as a line, and the values of each row as one. It takes
/// no memory.
///
/// The bytes wait on a page of 64 KiB, on the stack. [`Failed`] comes only where the sink's count of faults rose. Then a
/// proper prefix of the text was taken, and nothing else.
pub fn write_table<K: Sink>(out: &mut K, waves: &Waves) -> Result<(), Failed>
    ensures whole { OnOk result (Takes (K.told out.old) (K.told out.new) (printed_run waves.now.pins waves.now.rows)) }
    ensures part { OnErr result (TakesPart (K.told out.old) (K.told out.new) (printed_run waves.now.pins waves.now.rows)) }
    ensures later { K.faults out.old ≤ K.faults out.new }
    ensures failed { OnErr result (Rose (K.faults out.old) (K.faults out.new)) }
{
    let mut page = Page::new();
    put_table(&mut page, out, waves)?;
    page.flush(out)
}
