//! The first problem of a module.

ghost use Rattle.std.specs.Prelude.{◌≡◌, ◌⊎◌, IfErr, IfOk, OnOk};
ghost use Rattle.v_design.specs.Tree.{Tree};
ghost use Rattle.v_design.specs.WellFormed.{IsWellFormed};
ghost use Rattle.v_syntax.specs.Failing.{FailsIn};
ghost use Rattle.v_syntax.specs.Syntax.{IsSyntax};
ghost use Rattle.v_syntax.specs.Tokens.{placed};
ghost use Rattle.v_check.specs.Judged.{Judged};

use crate::drivers::{drive_all, undriven};
use crate::found::either;
use crate::loops::looping;
use crate::nets::{Net, declare, nets_of};
use crate::undeclared::undeclared_yet;
use crate::widths::uses_of;
use rb_base::{NoMemory, Place};
use std::alloc::Global;
use v_design::Stmt;
use v_syntax::{Parsed, VError, VSpot};

/// The first problem of a module, if it has one.
fn judge(
    alloc: Global,
    bytes: &[u8],
    tokens: &[VSpot],
    parsed: &Parsed<'_>,
) -> Result<Option<VError>, NoMemory>
    requires { (t : Tree) × IsSyntax (placed bytes.now tokens.now) parsed.now t }
    ensures { IfOk result (λ r. (t : Tree) → IsSyntax (placed bytes.now tokens.now) parsed.now t → Judged t (placed bytes.now tokens.now) r) }
{
    let listed = nets_of(alloc, &parsed.ports, &parsed.decls)?;
    let nets: &[Net] = &listed;
    let stmts: &[Stmt] = &parsed.stmts;
    let places: &[Place] = &parsed.declared;
    let (table, twice) = declare(alloc, nets, places)?;
    if let Some(place) = twice {
        return Ok(Some(VError::Twice { place }));
    }
    let (uses, misfit) = uses_of(alloc, &table, nets, stmts)?;
    let driving = drive_all(alloc, &table, nets, stmts, &parsed.events, &uses)?;
    let unknown = undeclared_yet(driving.declared, &table, bytes, tokens, parsed.before);
    if let Some(place) = unknown {
        return Ok(Some(VError::Undeclared { place }));
    }
    let undriven = undriven(&driving.drivers, nets, places);
    if let Some(place) = either(driving.misdriven, undriven) {
        return Ok(Some(VError::Driver { place }));
    }
    if let Some(place) = misfit {
        return Ok(Some(VError::Width { place }));
    }
    if let Some(place) = looping(alloc, nets, &driving.drivers, stmts, &uses)? {
        return Ok(Some(VError::Loop { place }));
    }
    Ok(None)
}

/// Judges a module that was parsed from these tokens of its bytes: whether it is well-formed, and else its first problem (this project's rules).
///
/// `Twice`, `Undeclared`, `Driver`, `Width` and `Loop` are judged in this order, each where those before it do not fail,
/// and answered at its least place. `NoMemory` comes for want of memory alone. Takes time in proportion to the size of
/// the module, but for names, each of which is looked up in order, and stack in proportion to the nesting of its expressions.
pub fn check(
    alloc: Global,
    bytes: &[u8],
    tokens: &[VSpot],
    parsed: &Parsed<'_>,
) -> Result<(), VError>
    requires { (t : Tree) × IsSyntax (placed bytes.now tokens.now) parsed.now t }
    ensures ok { OnOk result ((t : Tree) → IsSyntax (placed bytes.now tokens.now) parsed.now t → IsWellFormed t) }
    ensures err { IfErr result (λ e. (e ≡ VError.NoMemory)
        ⊎ ((t : Tree) → IsSyntax (placed bytes.now tokens.now) parsed.now t → FailsIn t (placed bytes.now tokens.now) e)) }
{
    match judge(alloc, bytes, tokens, parsed) {
        Ok(None) => Ok(()),
        Ok(Some(problem)) => Err(problem),
        Err(NoMemory) => Err(VError::NoMemory),
    }
}
