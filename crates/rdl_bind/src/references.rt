//! The references of a tree.

ghost use Rattle.std.specs.Prelude.{◌≡◌};
ghost use Rattle.rdl_values.specs.Elaboration.{IsClean};
ghost use Rattle.rdl_layers.specs.Answers.{IsSettled};
ghost use Rattle.rdl_refs.specs.Answers.{AnswersR};

use crate::tables::{named, tables_of};
use rdl_failures::{PhaseError, listed};
use rdl_layers::Props;
use rdl_nodes::rows;
use rdl_refs::{Dependencies, Refs};
use rdl_tree::Elab;
use std::alloc::Global;

/// What the references of a tree whose settings these are lead to (SystemRDL 2.0, 5.1.4), and what its items refer to by them, or all
/// failures of rules R1 and R2. `NoMemory` comes for want of memory alone.
pub fn bind<'a>(
    alloc: Global,
    elab: &Elab<'a>,
    props: &Props<'a>,
) -> Result<(Refs<'a>, Dependencies<'a>), PhaseError>
    requires clean { IsClean elab.now }
    requires settled { IsSettled elab.now }
    requires tree { props.now ≡ elab.now }
    ensures { AnswersR elab.now result }
{
    let Ok(rows) = rows(alloc, elab) else {
        return Err(PhaseError::NoMemory);
    };
    let Ok(found) = named(alloc, elab, props, &rows) else {
        return Err(PhaseError::NoMemory);
    };
    let Ok(list) = listed(found.faults) else {
        return Err(PhaseError::NoMemory);
    };
    if !list.is_empty() {
        return Err(PhaseError::Faults(list));
    }
    let Ok(made) = tables_of(alloc, elab, props, &rows, &found.items) else {
        return Err(PhaseError::NoMemory);
    };
    let numbers = made.numbers;
    let refs = Refs::of_tables(*elab, numbers.items, made.targets);
    let dependencies = Dependencies::of_tables(*elab, made.edges, numbers.places);
    Ok((refs, dependencies))
}
