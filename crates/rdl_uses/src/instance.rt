//! The failures of one instance of a definition.

ghost use Rattle.std.specs.Prelude.{◌≡◌, ◌&&◌, List, true, not, is_none, flat_map, IfOk, IfSome, IsSome, Some, is_some, option_to_list, Ok};
ghost use Rattle.rdl_base.specs.declared.rule.Rule.TheVariants as rules;
ghost use Rattle.rdl_values.specs.Bodies.{Closure};
ghost use Rattle.rdl_values.specs.Faults.{at_, when};
ghost use Rattle.rdl_values.specs.NoNode as spec;
ghost use Rattle.rdl_values.specs.Parts.{dims_of, is_empty};
ghost use Rattle.rdl_values.specs.Phase3 as phase;
ghost use Rattle.rdl_values.specs.Uses.{Seen, Use};
ghost use Rattle.rdl_failures.specs.Noted.{Holds, IsNoted, with_all};
ghost use Rattle.rdl_uses.specs.Before.{AreEarlier};
ghost use Rattle.rdl_uses.specs.Judged.{IsSeen, of_values};

use crate::earlier::Earlier;
use crate::holder::Parent;
use crate::parts::{is_bad_form, judge_parts};
use rb_base::NoMemory;
use rdl_base::Rule;
use rdl_failures::Failures;
use rdl_tree::{Def, Inst, Kind, Name};
use rdl_values::Chain;
use std::alloc::Global;

/// The most parameters of a definition that is used (rule E7).
const MOST_PARAMETERS: usize = 64;

/// Whether an instance of the kind is a single register, by its form alone.
pub fn is_single_reg(inst: &Inst, kind: Kind) -> bool
    ensures { result ≡ (is_empty inst.now.dims.now && is_none inst.now.range && spec.is_reg kind) }
{
    inst.dims.is_empty() & inst.range.is_none() & (kind == Kind::Reg)
}

// Puts in E13 where an alias has no primary before it or is no single register, and answers whether it has and is.
fn note_alias<'a>(
    alias: &Option<Name<'a>>,
    earlier: &Earlier<'a>,
    single: bool,
    failures: &mut Failures,
) -> Result<bool, NoMemory>
    ensures { IfOk result (λ clean. (us : List Use) → AreEarlier earlier.now us
        → IsNoted (flat_map (λ n. when (not (spec.has_primary us n && single)) (at_ rules.E13 n.place)) (option_to_list alias.now)) clean failures.old failures.new) }
{
    match alias {
        Some(name) => failures.note(!(earlier.has_primary(name) & single), Rule::E13, name.place),
        None => Ok(true),
    }
}

// The dimensions where all is clean.
fn kept(clean: bool, dims: Option<Vec<u64>>) -> Option<Vec<u64>>
    requires { clean ≡ true → IsSome dims }
    ensures some { is_some result ≡ clean }
    ensures same { IfSome result (λ ds. dims ≡ Some ds) }
{
    if clean { dims } else { None }
}

/// Puts in all failures of an instance of a definition that is visible, where those of its arguments and its parameters are in
/// already and `given` says whether there are none of those: E4, E5, E7, E8, E10 to E13 and the V rules in its parts. It gives
/// the dimensions where the instance gives nodes.
pub fn judge_instance<'a>(
    alloc: Global,
    inst: &Inst<'a>,
    def: &Def<'a>,
    alias: &Option<Name<'a>>,
    parent: Parent,
    visible: &Chain<'_, '_, '_, 'a>,
    earlier: &Earlier<'a>,
    given: bool,
    failures: &mut Failures,
) -> Result<Option<Vec<u64>>, NoMemory>
    ensures noted { IfOk result (λ r. (s : Seen) (c : Closure) → IsSeen inst.now def.now alias.now parent visible.now earlier.now s c → Holds failures.old (of_values s.use_ c) → given ≡ is_empty (of_values s.use_ c)
        → (failures.new ≡ with_all (phase.of_use s) failures.old) × (is_some r ≡ is_empty (spec.no_node s))) }
    ensures dims { IfOk result (λ r. (s : Seen) (c : Closure) → IsSeen inst.now def.now alias.now parent visible.now earlier.now s c → IfSome r (λ ds. dims_of s.use_ c.def.kind ≡ Ok ds.items)) }
{
    let name = &inst.name;
    let fresh = failures.note(earlier.has(name), Rule::E4, name.place)?;
    let held = failures.note(!parent.holder.may_hold(def.kind), Rule::E5, name.place)?;
    let dims = judge_parts(alloc, inst, def.kind, parent.standing, visible, failures)?;
    let single = is_single_reg(inst, def.kind);
    let aliased = note_alias(alias, earlier, single, failures)?;
    failures.note(def.params.len() > MOST_PARAMETERS, Rule::E7, def.place)?;
    failures.note(is_bad_form(inst, def.kind), Rule::E12, name.place)?;
    let clean = fresh & (held & given & dims.is_some() & aliased);
    Ok(kept(clean, dims))
}
