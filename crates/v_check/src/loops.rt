//! Assignments that lead back to their nets.

ghost use Rattle.std.specs.Prelude.{◌≡◌, ℕ, List, length, map, IfOk, IfNone, OnOk};
ghost use Rattle.v_design.specs.Tree.{Statement};
ghost use Rattle.v_design.specs.WellFormed.{Rises};
ghost use Rattle.v_syntax.specs.Syntax.{AreStatements};
ghost use Rattle.v_syntax.specs.declared.parsed.Event.{Event};
ghost use Rattle.v_check.specs.Drivers.{AreDrivers, AreNumbers, IsSingle, driver_at, driver_of};
ghost use Rattle.v_check.specs.Found.{Finds, Stands};
ghost use Rattle.v_check.specs.Loops.{IsLooping, IsUnranked, all_needs, stmt_needs};
ghost use Rattle.v_check.specs.Nets.{number_of};
ghost use Rattle.v_check.specs.Sizes.{stmt_places};
ghost use Rattle.v_check.specs.Uses.{AreUses, stmt_reads};

use crate::drivers::Drivers;
use crate::found::note;
use crate::nets::Net;
use crate::widths::Uses;
use rb_base::{NoMemory, Place};
use std::alloc::Global;
use topological_order::{Lists, Rank, levelize};
use v_design::Stmt;

/// The numbers of the statements that drive the nets that an assignment reads.
fn needs_of(
    drivers: &Drivers,
    stmt: &Stmt,
    reads: &[u32],
    needs: &mut Vec<usize>,
) -> Result<(), NoMemory>
    ensures { OnOk result ((number : List ℕ → ℕ) → reads.now ≡ stmt_reads number stmt.now
        → needs.new.items ≡ stmt_needs (λ n. driver_of drivers.now (number n)) stmt.now) }
{
    needs.clear();
    if stmt.clocked {
        return Ok(());
    }
    for net in reads {
        if let Some(number) = drivers.find(*net as usize) {
            needs.push(number)?;
        }
    }
    Ok(())
}

fn needs_of_each(
    alloc: Global,
    drivers: &Drivers,
    stmts: &[Stmt],
    reads: &Lists,
) -> Result<Lists, NoMemory>
    requires { length reads.now ≡ length stmts.now }
    ensures { IfOk result (λ r. (number : List ℕ → ℕ) → reads.now ≡ map (stmt_reads number) stmts.now
        → r ≡ all_needs (λ n. driver_of drivers.now (number n)) stmts.now) }
{
    let mut needs = Lists::new(alloc);
    let mut list = Vec::new(alloc);
    for (index, stmt) in stmts.iter().enumerate() {
        needs_of(drivers, stmt, reads.get(index), &mut list)?;
        needs.add(&list)?;
    }
    Ok(needs)
}

fn unranked(ranks: &[Rank], stmts: &[Stmt]) -> Option<Place>
    requires { length ranks.now ≡ length stmts.now }
    ensures { Finds (Stands (IsUnranked ranks.now) (stmt_places stmts.now)) result }
{
    let mut found = None;
    for (index, stmt) in stmts.iter().enumerate() {
        found = note(found, ranks[index].is_none(), stmt.place);
    }
    found
}

/// The least place of an assignment from whose net one can go on for ever, from a net to one that its assignment reads.
/// Takes time in proportion to the size of the statements, and no stack in proportion to a chain of them.
pub(crate) fn looping(
    alloc: Global,
    nets: &[Net],
    drivers: &Drivers,
    stmts: &[Stmt],
    uses: &Uses,
) -> Result<Option<Place>, NoMemory>
    requires uses { AreUses (number_of nets.now) uses.now stmts.now }
    requires numbers { AreNumbers (driver_at nets.now drivers.now) (length stmts.now) }
    ensures found { IfOk result (λ r. (events : List Event) (ss : List Statement) → AreStatements stmts.now events ss
        → AreDrivers (driver_at nets.now drivers.now) ss → IsSingle ss → Finds (Stands (IsLooping ss) (stmt_places stmts.now)) r) }
    ensures rank { IfOk result (λ r. (events : List Event) (ss : List Statement) → AreStatements stmts.now events ss
        → AreDrivers (driver_at nets.now drivers.now) ss → IsSingle ss → IfNone r ((rank : List ℕ → ℕ) × Rises rank ss)) }
{
    let needs = needs_of_each(alloc, drivers, stmts, &uses.reads)?;
    let levels = levelize(alloc, &needs)?;
    Ok(unranked(&levels.ranks, stmts))
}
