//! The map of a tree.

ghost use Rattle.std.specs.Prelude.{◌≡◌};
ghost use Rattle.rdl_values.specs.Elaboration.{IsClean};
ghost use Rattle.rdl_layers.specs.Answers.{IsSettled};
ghost use Rattle.rdl_addr.specs.Answers.{AnswersAB};

use crate::tables::lay_out;
use rdl_addr::Map;
use rdl_failures::{PhaseError, listed};
use rdl_layers::Props;
use rdl_tree::Elab;
use std::alloc::Global;

/// The addresses and bits of a tree whose settings these are (SystemRDL 2.0, 5.1.2.2 and 9.1), or all failures of rules A1 to A6, B1
/// and B2. `NoMemory` too where an address or a size is 2^128 or above.
pub fn place<'a>(alloc: Global, elab: &Elab<'a>, props: &Props<'a>) -> Result<Map<'a>, PhaseError>
    requires clean { IsClean elab.now }
    requires settled { IsSettled elab.now }
    requires tree { props.now ≡ elab.now }
    ensures { AnswersAB elab.now result }
{
    let Ok(laid) = lay_out(alloc, elab, props) else {
        return Err(PhaseError::NoMemory);
    };
    let Ok(list) = listed(laid.faults) else {
        return Err(PhaseError::NoMemory);
    };
    if !list.is_empty() {
        return Err(PhaseError::Faults(list));
    }
    Ok(Map::of_tables(*elab, laid.areas, laid.bits))
}
