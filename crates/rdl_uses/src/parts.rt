//! The failures of one instance's parts.

ghost use Rattle.std.specs.Prelude.{◌≡◌, ◌||◌, [], ◌∷◌, cond, nat_lt, flat_map, IfOk, IfSome, IsSome, Some, true, is_some, option_copied, option_to_list, Ok};
ghost use Rattle.rdl_values.specs.Bodies.{around};
ghost use Rattle.rdl_values.specs.Parts as spec;
ghost use Rattle.rdl_values.specs.Paths.{Parent};
ghost use Rattle.rdl_values.specs.Phase3 as phase;
ghost use Rattle.rdl_values.specs.Uses.{Use, form_of};
ghost use Rattle.rdl_values.specs.Values.{Around};
ghost use Rattle.rdl_failures.specs.Noted.{IsNoted};
ghost use Rattle.rdl_failures.specs.Shown.{IsShown};
ghost use Rattle.rdl_uses.specs.Parts.{AreDims, AreNumbers, IsUseOf, StandsAt, fails_of, of_parts, other_parts};

use crate::dims::{Dims, is_long, is_unit, judge_dims};
use crate::standing::Standing;
use rb_base::NoMemory;
use rdl_base::Rule;
use rdl_failures::{Failures, number_seen};
use rdl_tree::{Expr, Inst, Kind};
use rdl_values::Chain;
use std::alloc::Global;

/// The most names that a path has, the top's among them (rule E8).
const MOST_NAMES: u8 = 32;

/// The most dimensions of an array (rule E10).
const MOST_DIMS: usize = 8;

// Puts in the failure of a part, and answers whether it has none.
fn note_part<'a>(
    part: Option<&Expr<'a>>,
    visible: &Chain<'_, '_, '_, 'a>,
    failures: &mut Failures,
) -> Result<bool, NoMemory>
    ensures { IfOk result (λ clean. (around : Around) → IsShown visible.now around → IsNoted (flat_map (fails_of around) (option_to_list (option_copied part.entry))) clean failures.old failures.new) }
{
    match part {
        Some(expr) => Ok(failures.value_of(number_seen(expr, visible))?.is_some()),
        None => Ok(true),
    }
}

// Puts in the failures of a range of bits, and answers whether there are none.
fn note_range<'a>(
    range: Option<&(Expr<'a>, Expr<'a>)>,
    visible: &Chain<'_, '_, '_, 'a>,
    failures: &mut Failures,
) -> Result<bool, NoMemory>
    ensures { IfOk result (λ clean. (around : Around) → IsShown visible.now around
        → IsNoted (flat_map (fails_of around) (flat_map (λ r. r.0 ∷ r.1 ∷ []) (option_to_list (option_copied range.entry)))) clean failures.old failures.new) }
{
    match range {
        Some((high, low)) => {
            let high = failures.value_of(number_seen(high, visible))?.is_some();
            let low = failures.value_of(number_seen(low, visible))?.is_some();
            Ok(high & low)
        }
        None => Ok(true),
    }
}

// Puts in the failures of the parts behind the dimensions, and answers whether there are none.
fn note_others<'a>(
    inst: &Inst<'a>,
    visible: &Chain<'_, '_, '_, 'a>,
    failures: &mut Failures,
) -> Result<bool, NoMemory>
    ensures { IfOk result (λ clean. (around : Around) → IsShown visible.now around
        → IsNoted (flat_map (fails_of around) (other_parts (form_of inst.now))) clean failures.old failures.new) }
{
    let range = note_range(inst.range, visible, failures)?;
    let reset = note_part(inst.reset, visible, failures)?;
    let at = note_part(inst.at, visible, failures)?;
    let stride = note_part(inst.stride, visible, failures)?;
    let align = note_part(inst.align, visible, failures)?;
    Ok(range & reset & at & stride & align)
}

// Whether there are too many dimensions, or one of 0; of a field or a signal, more than one bracket.
fn is_bad_array(dims: &Dims, brackets: usize, kind: Kind) -> bool
    ensures { result ≡ cond (spec.is_unit kind) (nat_lt 1 brackets) (nat_lt spec.most_dims brackets || dims.now.zero) }
{
    if is_unit(kind) {
        brackets > 1
    } else {
        brackets > MOST_DIMS || dims.zero
    }
}

// The dimensions, if they have numbers; a field or a signal has none.
fn dims_of(alloc: Global, dims: Dims, kind: Kind) -> Option<Vec<u64>>
    ensures some { dims.clean ≡ true → IsSome result }
    ensures numbers { (u : Use) → AreDims (around u.scope) u.dims dims → AreNumbers (spec.dims_of u kind) result }
{
    if is_unit(kind) {
        return Some(Vec::new(alloc));
    }
    if dims.clean { Some(dims.numbers) } else { None }
}

// The dimensions where all is clean.
fn kept(clean: bool, dims: Option<Vec<u64>>) -> Option<Vec<u64>>
    requires { clean ≡ true → IsSome dims }
    ensures some { is_some result ≡ clean }
    ensures same { IfSome result (λ ds. dims ≡ Some ds) }
{
    if clean { dims } else { None }
}

/// Puts in the failures of an instance's parts and of where it stands: V rules, E8, E10 and E11. It gives the dimensions where there
/// are none; a field or a signal has no dimensions.
pub fn judge_parts<'a>(
    alloc: Global,
    inst: &Inst<'a>,
    kind: Kind,
    standing: Standing,
    visible: &Chain<'_, '_, '_, 'a>,
    failures: &mut Failures,
) -> Result<Option<Vec<u64>>, NoMemory>
    ensures noted { IfOk result (λ r. (p : Parent) (u : Use) → StandsAt standing p → IsUseOf inst.now visible.now u → IsNoted (of_parts p u kind) (is_some r) failures.old failures.new) }
    ensures dims { IfOk result (λ r. (u : Use) → IsUseOf inst.now visible.now u → IfSome r (λ ds. spec.dims_of u kind ≡ Ok ds.items)) }
{
    let name = &inst.name;
    let dims = judge_dims(alloc, inst.dims, visible, failures)?;
    let others = note_others(inst, visible, failures)?;
    let shallow = failures.note(standing.depth > MOST_NAMES, Rule::E8, name.place)?;
    let bad = is_bad_array(&dims, inst.dims.len(), kind);
    let array = failures.note(bad, Rule::E10, name.place)?;
    let clean = dims.clean;
    let of = dims_of(alloc, dims, kind);
    let long = is_long(alloc, standing.prefix, name.text, &of)?;
    let short = failures.note(long, Rule::E11, name.place)?;
    Ok(kept(clean & others & shallow & array & short, of))
}

/// Whether an instance of the kind has a part that the kind doesn't take, or two that exclude each other (rule E12).
pub fn is_bad_form(inst: &Inst, kind: Kind) -> bool
    ensures { (u : Use) → u.form ≡ form_of inst.now → u.dims ≡ inst.now.dims.now → result ≡ phase.is_bad_form u kind }
{
    let field = kind == Kind::Field;
    let bits = !field & (inst.range.is_some() | inst.reset.is_some());
    let bytes = is_unit(kind) & (inst.at.is_some() | inst.stride.is_some() | inst.align.is_some());
    let exclusive = inst.at.is_some() & inst.align.is_some();
    let alone = inst.stride.is_some() & inst.dims.is_empty();
    bits | bytes | exclusive | alone
}
