//! The order in which nets settle (levelization).
ghost use Rattle.std.specs.Prelude.{◌≡◌, ◌++◌, ◌∷◌, [], IfOk, OnOk, map};
ghost use Rattle.v_design.specs.Expr.{nets_of};
ghost use Rattle.v_design.specs.Seen.{expr_seen, step_seen};
ghost use Rattle.cyc_sim.specs.Order.{AreDrivers, IsAcyclic, IsSettlingOrder, all_needs, driver_at, numbers_of, step_needs};

use crate::compile::bytes_of;
use rb_base::NoMemory;
use std::alloc::Global;
use std::collections::BTreeMap;
use topological_order::{Levels, Lists, levelize};
use v_design::{Stmt, VExpr};

/// The number of the assignment that drives each net.
fn drivers_of(alloc: Global, stmts: &[Stmt]) -> Result<BTreeMap<&[u8], usize>, NoMemory>
    ensures { IfOk result (λ d. AreDrivers d (map step_seen stmts.now)) }
{
    let mut drivers = BTreeMap::new(alloc);
    for (index, stmt) in stmts.iter().enumerate() {
        if !stmt.clocked {
            drivers.insert(bytes_of(&stmt.to), index)?;
        }
    }
    Ok(drivers)
}

/// Puts the number of a net's driver behind others, if it has one.
fn need(
    drivers: &BTreeMap<&[u8], usize>,
    name: &[u8],
    needs: &mut Vec<usize>,
) -> Result<(), NoMemory>
    ensures { OnOk result (needs.new.items ≡ needs.old.items ++ numbers_of (driver_at drivers.now) (name.now ∷ [])) }
{
    if let Some(driver) = drivers.get(name) {
        needs.push(*driver)?;
    }
    Ok(())
}

/// Puts the numbers of the drivers of the nets that an expression reads behind others.
fn needs_in(
    drivers: &BTreeMap<&[u8], usize>,
    expr: &VExpr,
    needs: &mut Vec<usize>,
) -> Result<(), NoMemory>
    ensures { OnOk result (needs.new.items ≡ needs.old.items ++ numbers_of (driver_at drivers.now) (nets_of (expr_seen expr.now))) }
{
    match expr {
        VExpr::Net(name) | VExpr::Bits(name, _, _) => need(drivers, bytes_of(name), needs),
        VExpr::Const(_, _) => Ok(()),
        VExpr::Cat(parts) => {
            for part in parts {
                needs_in(drivers, part, needs)?;
            }
            Ok(())
        }
        VExpr::One(_, of) => needs_in(drivers, of, needs),
        VExpr::Two(_, left, right) => {
            needs_in(drivers, left, needs)?;
            needs_in(drivers, right, needs)
        }
        VExpr::Pick(test, chosen, other) => {
            needs_in(drivers, test, needs)?;
            needs_in(drivers, chosen, needs)?;
            needs_in(drivers, other, needs)
        }
    }
}

/// The numbers of the assignments that drive the nets that an assignment reads.
fn needs_of(
    alloc: Global,
    drivers: &BTreeMap<&[u8], usize>,
    stmt: &Stmt,
) -> Result<Vec<usize>, NoMemory>
    ensures { IfOk result (λ r. r.items ≡ step_needs (driver_at drivers.now) (step_seen stmt.now)) }
{
    let mut needs = Vec::new(alloc);
    if !stmt.clocked {
        needs_in(drivers, &stmt.expr, &mut needs)?;
    }
    Ok(needs)
}

fn needs_of_each(
    alloc: Global,
    drivers: &BTreeMap<&[u8], usize>,
    stmts: &[Stmt],
) -> Result<Lists, NoMemory>
    ensures { IfOk result (λ r. r ≡ all_needs (driver_at drivers.now) (map step_seen stmts.now)) }
{
    let mut needs = Lists::new(alloc);
    for stmt in stmts {
        let list = needs_of(alloc, drivers, stmt)?;
        needs.add(&list)?;
    }
    Ok(needs)
}

/// The numbers of statements, each assignment's behind those of the assignments that drive the nets that it reads. It
/// takes time in proportion to the size of the statements, but for names, each of which is looked up in order.
pub(crate) fn settling_order(alloc: Global, stmts: &[Stmt]) -> Result<Vec<u32>, NoMemory>
    requires { IsAcyclic (map step_seen stmts.now) }
    ensures { IfOk result (λ o. IsSettlingOrder (map step_seen stmts.now) o.items) }
{
    let drivers = drivers_of(alloc, stmts)?;
    let needs = needs_of_each(alloc, &drivers, stmts)?;
    let Levels { order, .. } = levelize(alloc, &needs)?;
    Ok(order)
}
