//! `settle`.

ghost use Rattle.std.specs.Prelude.{IfOk};
ghost use Rattle.rdl_values.specs.Elaboration.{IsClean};
ghost use Rattle.rdl_settle.specs.Gathered.{IsGathered, IsRefused};
ghost use Rattle.rdl_settle.specs.Settled.{Settles};

use crate::above::assign_all;
use crate::completing::complete_all;
use crate::names::names_of;
use bumpalo::Bump;
use rb_base::NoMemory;
use rdl_encodings::encodings_of;
use rdl_facts::facts_of;
use rdl_failures::{Failures, PhaseError};
use rdl_layers::{PropSetting, Props};
use rdl_merge::entries_say;
use rdl_nodes::{Row, rows};
use rdl_open_bodies::{OpenTree, open_tree};
use rdl_open_settings::judge_layers;
use rdl_rules::Settled;
use rdl_tree::Elab;
use std::alloc::Global;

/// The nodes of a tree, the bodies that are open for them, and what decides their properties.
#[derive(Drop)]
struct Gathered<'s, 'a> {
    rows: Vec<Row<'a>>,
    tree: OpenTree<'s, 'a>,
    entries: Vec<Vec<PropSetting<'a>>>,
}

// Puts in all failures of the phase, and gives the entries of each node.
fn gather<'s, 'a>(
    alloc: Global,
    scratch: &'s Bump,
    arena: &'a Bump,
    elab: &Elab<'a>,
    failures: &mut Failures,
) -> Result<Gathered<'s, 'a>, NoMemory>
    requires { IsClean elab.now }
    ensures { IfOk result (λ r. IsGathered elab.now r failures.old failures.new) }
{
    let rows = rows(alloc, elab)?;
    let tree = open_tree(alloc, scratch, arena, elab, &rows)?;
    let layers = judge_layers(alloc, arena, &tree, failures)?;
    let mut entries = assign_all(alloc, &rows, &tree, &layers, failures)?;
    complete_all(
        alloc,
        &rows,
        &tree,
        &layers,
        elab.count,
        &mut entries,
        failures,
    )?;
    Ok(Gathered {
        rows,
        tree,
        entries,
    })
}

// The failures as an error.
fn refused<'a>(alloc: Global, failures: Failures) -> PhaseError
    ensures { IsRefused failures result }
{
    match failures.into_list(alloc) {
        Ok(list) => PhaseError::Faults(list),
        Err(_) => PhaseError::NoMemory,
    }
}

/// What every property of every node of a tree is set to, the facts of its fields and signals, and the enumerations by which its fields
/// are encoded, or all failures of the phase: rules P1 to P11, and V rules in values and indices (SystemRDL 2.0, 5.1.3). The
/// names and values of open bodies stay in the arena, and so do the numbers of those that are seen in each; lists of uses go with the
/// phase.
pub fn settle<'a>(
    alloc: Global,
    arena: &'a Bump,
    elab: &Elab<'a>,
) -> Result<Settled<'a>, PhaseError>
    requires { IsClean elab.now }
    ensures { Settles elab.now result }
{
    entries_say();
    let mut failures = Failures::new(alloc);
    let scratch = Bump::new(alloc);
    let Ok(gathered) = gather(alloc, &scratch, arena, elab, &mut failures) else {
        return Err(PhaseError::NoMemory);
    };
    if !failures.is_empty() {
        return Err(refused(alloc, failures));
    }
    let Gathered {
        rows,
        tree,
        entries,
    } = gathered;
    let Ok(facts) = facts_of(alloc, &rows, &tree, &entries) else {
        return Err(PhaseError::NoMemory);
    };
    let Ok(encodings) = encodings_of(alloc, &rows, &tree, &entries) else {
        return Err(PhaseError::NoMemory);
    };
    let Ok(names) = names_of(alloc, arena, tree) else {
        return Err(PhaseError::NoMemory);
    };
    let props = Props::of(*elab, entries, names);
    Ok(Settled {
        props,
        facts,
        encodings,
    })
}
