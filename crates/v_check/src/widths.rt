//! The widths of statements, and the nets that they name, by number.

ghost use Rattle.std.specs.Prelude.{◌≡◌, ◌++◌, ◌∷◌, [], ℕ, List, map, IfOk, OnOk};
ghost use Rattle.v_design.specs.Expr as expr;
ghost use Rattle.v_design.specs.Expr.{Expr, Widths, nets_of};
ghost use Rattle.v_design.specs.Seen.{expr_seen, step_seen};
ghost use Rattle.v_check.specs.Found.{Finds, Stands};
ghost use Rattle.v_check.specs.Nets.{AreNets, nets_seen, number_of, width_in};
ghost use Rattle.v_check.specs.Sizes.{IsMisfit, joined, sized_width, stmt_places, step_fits};
ghost use Rattle.v_check.specs.Uses.{AreUses};

use crate::found::note;
use crate::names::bytes_of;
use crate::nets::{Net, Table, width_at};
use rb_base::{NoMemory, Place, Text};
use std::alloc::Global;
use topological_order::Lists;
use v_design::{Stmt, VExpr, VOne, VTwo};

/// The nets that statements name, by number. Where no net has a name, it is how many nets there are.
#[derive(Drop)]
pub(crate) struct Uses {
    /// For each statement the net that it drives.
    pub targets: Vec<usize>,
    /// For each statement the nets that its expression reads.
    pub reads: Lists,
}

/// The width of an operator's result (IEEE 1364-2005, clause 5.4.1).
fn one_width(op: VOne, of: Option<u8>) -> Option<u8>
    ensures { (ws : Widths) (e : Expr) → of ≡ sized_width ws e → result ≡ sized_width ws (expr.One op e) }
{
    let width = of?;
    match op {
        VOne::Not => Some(width),
        VOne::All | VOne::Any | VOne::Odd => Some(1),
    }
}

/// The width of an operator's result (IEEE 1364-2005, clause 5.4.1).
fn two_width(op: VTwo, left: Option<u8>, right: Option<u8>) -> Option<u8>
    ensures { (ws : Widths) (a b : Expr) → left ≡ sized_width ws a → right ≡ sized_width ws b
        → result ≡ sized_width ws (expr.Two op a b) }
{
    let width = left?;
    if width != right? {
        return None;
    }
    match op {
        VTwo::Add | VTwo::Sub | VTwo::And | VTwo::Or | VTwo::Xor => Some(width),
        VTwo::Eq | VTwo::Ne | VTwo::Lt | VTwo::Le | VTwo::Gt | VTwo::Ge => Some(1),
    }
}

/// The width of a choice: its test has one bit, and its values have one width.
fn pick_width(test: Option<u8>, chosen: Option<u8>, other: Option<u8>) -> Option<u8>
    ensures { (ws : Widths) (c a b : Expr) → test ≡ sized_width ws c → chosen ≡ sized_width ws a → other ≡ sized_width ws b
        → result ≡ sized_width ws (expr.Pick c a b) }
{
    let width = chosen?;
    if test? != 1 || width != other? {
        return None;
    }
    Some(width)
}

/// The width of a concatenation with one part more.
fn cat_width(total: Option<u8>, part: Option<u8>) -> Option<u8>
    ensures { result ≡ joined total part }
{
    let total = total?;
    let part = part?;
    if total <= 128 && part <= 128 - total {
        Some(total + part)
    } else {
        None
    }
}

/// Puts the number of the net of a name behind others, and answers the net's width.
fn use_of(table: &Table, nets: &[Net], name: &Text, uses: &mut Vec<usize>) -> Result<u8, NoMemory>
    requires { AreNets table.now nets.now }
    ensures width { IfOk result (λ w. w ≡ width_in (nets_seen nets.now) name.now) }
    ensures uses { OnOk result (uses.new.items ≡ uses.old.items ++ number_of nets.now name.now ∷ []) }
{
    let number = table.number(nets, bytes_of(name));
    uses.push(number)?;
    Ok(width_at(nets, number))
}

/// The width of an expression in bits, where the widths in it agree (IEEE 1364-2005, clause 5.4.1, and this project's
/// rule that nothing is extended). Puts the numbers of the nets that it reads behind others, in order.
fn width_of(
    table: &Table,
    nets: &[Net],
    expr: &VExpr,
    uses: &mut Vec<usize>,
) -> Result<Option<u8>, NoMemory>
    requires { AreNets table.now nets.now }
    ensures width { IfOk result (λ w. w ≡ sized_width (width_in (nets_seen nets.now)) (expr_seen expr.now)) }
    ensures uses { OnOk result (uses.new.items ≡ uses.old.items ++ map (number_of nets.now) (nets_of (expr_seen expr.now))) }
{
    match expr {
        VExpr::Net(name) => {
            let width = use_of(table, nets, name, uses)?;
            Ok(Some(width))
        }
        VExpr::Bits(name, high, low) => {
            let width = use_of(table, nets, name, uses)?;
            if *low <= *high && *high < width && width > 1 {
                Ok(Some(*high - *low + 1))
            } else {
                Ok(None)
            }
        }
        VExpr::Const(width, _) => Ok(Some(*width)),
        VExpr::Cat(parts) => {
            let mut total = Some(0);
            for part in parts {
                let width = width_of(table, nets, part, uses)?;
                total = cat_width(total, width);
            }
            Ok(total)
        }
        VExpr::One(op, of) => {
            let of = width_of(table, nets, of, uses)?;
            Ok(one_width(*op, of))
        }
        VExpr::Two(op, left, right) => {
            let left = width_of(table, nets, left, uses)?;
            let right = width_of(table, nets, right, uses)?;
            Ok(two_width(*op, left, right))
        }
        VExpr::Pick(test, chosen, other) => {
            let test = width_of(table, nets, test, uses)?;
            let chosen = width_of(table, nets, chosen, uses)?;
            let other = width_of(table, nets, other, uses)?;
            Ok(pick_width(test, chosen, other))
        }
    }
}

/// Whether both sides of a statement have one width, and so has a reset's constant.
fn fits(nets: &[Net], target: usize, width: Option<u8>, stmt: &Stmt) -> bool
    requires target { target ≡ number_of nets.now stmt.now.to }
    requires width { width ≡ sized_width (width_in (nets_seen nets.now)) (expr_seen stmt.now.expr) }
    ensures { result ≡ step_fits (width_in (nets_seen nets.now)) (step_seen stmt.now) }
{
    let Some(width) = width else {
        return false;
    };
    if width != width_at(nets, target) {
        return false;
    }
    match &stmt.reset {
        Some(reset) => width == reset.width,
        None => true,
    }
}

/// The nets that statements name, and the least place of a statement whose widths do not agree. Each name is looked up
/// once.
pub(crate) fn uses_of(
    alloc: Global,
    table: &Table,
    nets: &[Net],
    stmts: &[Stmt],
) -> Result<(Uses, Option<Place>), NoMemory>
    requires { AreNets table.now nets.now }
    ensures uses { IfOk result (λ r. AreUses (number_of nets.now) r.0 stmts.now) }
    ensures found { IfOk result (λ r. Finds (Stands (IsMisfit (width_in (nets_seen nets.now)) stmts.now) (stmt_places stmts.now)) r.1) }
{
    let mut targets = Vec::with_capacity(alloc, stmts.len())?;
    let mut reads = Lists::new(alloc);
    let mut list = Vec::new(alloc);
    let mut found = None;
    for stmt in stmts {
        let target = table.number(nets, bytes_of(&stmt.to));
        targets.push(target)?;
        list.clear();
        let width = width_of(table, nets, &stmt.expr, &mut list)?;
        reads.add(&list)?;
        found = note(found, !fits(nets, target, width, stmt), stmt.place);
    }
    Ok((Uses { targets, reads }, found))
}
