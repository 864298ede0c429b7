//! The numbers of an instance's dimensions.

ghost use Rattle.std.specs.Prelude.{◌≡◌, ℕ, List, ◌-◌, ◌==◌, true, map, flat_map, IfOk, IfSome, option_map, is_some, Ok};
ghost use Rattle.std.specs.List.{list_any};
ghost use Rattle.rdl_tree.specs.declared.expr.Expr.{Expr as AnyExpr};
ghost use Rattle.rdl_values.specs.Parts as parts;
ghost use Rattle.rdl_values.specs.Paths.{Parent};
ghost use Rattle.rdl_values.specs.Uses.{Use, values};
ghost use Rattle.rdl_values.specs.Values.{Around, Outcome};
ghost use Rattle.rdl_failures.specs.Noted.{IsNoted};
ghost use Rattle.rdl_failures.specs.Shown.{IsShown};
ghost use Rattle.rdl_uses.specs.Parts.{AreDims, AreNumbers, HasPrefix, fails_of};

use crate::lengths::text_len;
use rb_base::NoMemory;
use rdl_base::Fault;
use rdl_failures::{Failures, number_seen};
use rdl_tree::{Expr, Kind};
use rdl_values::Chain;
use std::alloc::Global;

/// Numbers of expressions, as far as they have any.
#[derive(Drop)]
pub(crate) struct Dims {
    pub numbers: Vec<u64>,
    /// Whether each has one.
    pub clean: bool,
    /// Whether one is 0.
    pub zero: bool,
}

impl Dims {
    ghost use Rattle.std.specs.Prelude.{◌≡◌, OnOk};
    ghost use Rattle.rdl_values.specs.Faults as faults;
    ghost use Rattle.rdl_failures.specs.Noted.{with_all};
    ghost use Rattle.rdl_uses.specs.Parts.{IsAdded};

    // Puts a number behind the others, or its failure in.
    fn add(&mut self, number: Result<u64, Fault>, failures: &mut Failures) -> Result<(), NoMemory>
        ensures added { OnOk result (IsAdded number self.old self.new) }
        ensures noted { OnOk result (failures.new ≡ with_all (faults.failures number) failures.old) }
    {
        match failures.value_of(number)? {
            Some(number) => {
                self.zero |= number == 0;
                self.numbers.push(number)?;
                Ok(())
            }
            None => {
                self.clean = false;
                Ok(())
            }
        }
    }
}

/// The numbers of dimensions. The first failure of each is put in.
pub(crate) fn judge_dims<'a>(
    alloc: Global,
    exprs: &[Expr<'a>],
    visible: &Chain<'_, '_, '_, 'a>,
    failures: &mut Failures,
) -> Result<Dims, NoMemory>
    ensures dims { IfOk result (λ r. (around : Around) → IsShown visible.now around → AreDims around exprs.now r) }
    ensures noted { IfOk result (λ r. (around : Around) → IsShown visible.now around → IsNoted (flat_map (fails_of around) exprs.now) r.clean failures.old failures.new) }
{
    let mut dims = Dims {
        numbers: Vec::new(alloc),
        clean: true,
        zero: false,
    };
    for expr in exprs {
        dims.add(number_seen(expr, visible), failures)?;
    }
    Ok(dims)
}

/// Whether the kind is no array: a field or a signal, whose bracket is its width.
pub(crate) fn is_unit(kind: Kind) -> bool
    ensures { result ≡ parts.is_unit kind }
{
    matches!(kind, Kind::Field | Kind::Signal)
}

// The indices of the last element.
fn last_index(alloc: Global, dims: &[u64]) -> Result<Vec<u64>, NoMemory>
    ensures { IfOk result (λ r. r.items ≡ map (λ d. d - 1) dims.now) }
{
    Ok(dims.iter().map(|d| d.saturating_sub(1)).collect(alloc)?)
}

// Whether the path text of the last element is longer than 900 bytes. Where a dimension is 0 there is none.
fn is_last_long(alloc: Global, prefix: u16, name: &[u8], dims: &[u64]) -> Result<bool, NoMemory>
    ensures { IfOk result (λ long. (p : Parent) (u : Use) → HasPrefix prefix p → u.name.text.now ≡ name.now → long ≡ parts.is_long p u (Ok dims.now)) }
{
    if dims.contains(&0) {
        return Ok(false);
    }
    let index = last_index(alloc, dims)?;
    Ok(text_len(prefix, name, &index).is_none())
}

/// Whether the path text of the last element is longer than 900 bytes. Where a dimension has no number or is 0 there is none.
pub(crate) fn is_long(
    alloc: Global,
    prefix: u16,
    name: &[u8],
    dims: &Option<Vec<u64>>,
) -> Result<bool, NoMemory>
    ensures { IfOk result (λ long. (p : Parent) (u : Use) (o : Outcome (List ℕ)) → HasPrefix prefix p → u.name.text.now ≡ name.now → AreNumbers o dims.now → long ≡ parts.is_long p u o) }
{
    match dims {
        Some(dims) => is_last_long(alloc, prefix, name, dims),
        None => Ok(false),
    }
}
