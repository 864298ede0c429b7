//! The words of a tree.

ghost use Rattle.std.specs.Prelude.{◌≡◌, IfOk, Some};
ghost use Rattle.rdl_values.specs.Elaborated.{top_name};
ghost use Rattle.rdl_values.specs.Elaboration.{IsClean};
ghost use Rattle.rdl_layers.specs.Answers.{IsSettled};
ghost use Rattle.rdl_nodes.specs.Rows.{AreRows};
ghost use Rattle.rdl_addr.specs.Answers.{IsPlaced};
ghost use Rattle.rdl_addr.specs.Rules.{registers as registers_of};
ghost use Rattle.rdl_rules.specs.Words.{AreByAddress, read_words, write_words};

use crate::access::Access;
use crate::lists::{Words, by_address};
use crate::registers::registers;
use rb_base::NoMemory;
use rdl_addr::Map;
use rdl_layers::Props;
use rdl_nodes::Row;
use rdl_sound_laws::words_rise;
use rdl_tree::Elab;
use std::alloc::Global;

/// The words that software reads and those that it writes, of a tree of which these are the settings, the places and the rows. The only
/// error is want of memory.
pub fn all_words(
    alloc: Global,
    elab: &Elab<'_>,
    props: &Props<'_>,
    map: &Map<'_>,
    rows: &[Row<'_>],
) -> Result<Words, NoMemory>
    requires clean { IsClean elab.now }
    requires settled { IsSettled elab.now }
    requires placed { IsPlaced elab.now }
    requires props { props.now ≡ elab.now }
    requires map { map.now ≡ elab.now }
    requires rows { AreRows elab.now rows.now }
    ensures reads { IfOk result (λ ws. AreByAddress (read_words (registers_of (Some (top_name elab.now)) elab.now.source.now)) ws.reads.items) }
    ensures writes { IfOk result (λ ws. AreByAddress (write_words (registers_of (Some (top_name elab.now)) elab.now.source.now)) ws.writes.items) }
{
    words_rise();
    let entries = registers(alloc, props, map, rows)?;
    let reads = by_address(alloc, &entries, Access::Reads)?;
    let writes = by_address(alloc, &entries, Access::Writes)?;
    Ok(Words { reads, writes })
}
