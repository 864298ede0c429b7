//! The failures of all instances of one type in a body, and which of them give nodes.

ghost use Rattle.std.specs.Prelude.{◌≡◌, List, ◌++◌, map, flat_map, is_none, option_to_list, IfOk, OnOk};
ghost use Rattle.rdl_values.specs.Phase3.{of_use};
ghost use Rattle.rdl_values.specs.Uses.{Use};
ghost use Rattle.rdl_failures.specs.Noted.{with_all};
ghost use Rattle.rdl_uses.specs.Before.{AreEarlier};
ghost use Rattle.rdl_uses.specs.Given.{IsType, TypeUsed, given_in, pair_of, seens, use_by};

use crate::earlier::Earlier;
use crate::holder::Parent;
use crate::instance::{is_single_reg, judge_instance};
use rb_base::NoMemory;
use rdl_failures::Failures;
use rdl_tree::{Def, Inst, Name};
use rdl_values::Chain;
use std::alloc::Global;

/// The type of some instances in a body: its definition, the primary that they are aliases of, if they are aliases, and whether
/// its arguments and parameters have no failure.
#[derive(Clone, Copy)]
pub struct Visited<'d, 'a> {
    pub def: &'d Def<'a>,
    pub alias: Option<Name<'a>>,
    pub given: bool,
}

/// An instance that gives nodes, and its dimensions.
#[derive(Drop)]
pub struct SizedInst<'a> {
    pub inst: &'a Inst<'a>,
    pub dims: Vec<u64>,
}

// Whether no primary is named.
fn is_no_alias(alias: &Option<Name>) -> bool
    ensures { result ≡ is_none alias.now }
{
    alias.is_none()
}

// Puts an instance behind the others, if it gives nodes.
fn add<'a>(
    list: &mut Vec<SizedInst<'a>>,
    inst: &'a Inst<'a>,
    dims: Option<Vec<u64>>,
) -> Result<(), NoMemory>
    ensures { OnOk result (map pair_of list.new.items ≡ map pair_of list.old.items ++ map (λ ds. (inst.now, ds.items)) (option_to_list dims)) }
{
    match dims {
        Some(dims) => {
            list.push(SizedInst { inst, dims })?;
            Ok(())
        }
        None => Ok(()),
    }
}

/// Puts in all failures of the instances of a type that is visible, where those of its arguments and its parameters are in already.
/// It gives those that give nodes.
pub fn judge_instances<'a>(
    alloc: Global,
    insts: &'a [Inst<'a>],
    of: &Visited<'_, 'a>,
    parent: Parent,
    visible: &Chain<'_, '_, '_, 'a>,
    earlier: &mut Earlier<'a>,
    failures: &mut Failures,
) -> Result<Vec<SizedInst<'a>>, NoMemory>
    ensures earlier { IfOk result (λ r. (t : TypeUsed) (us : List Use) → IsType of.now parent visible.now failures.old t → AreEarlier earlier.old us → AreEarlier earlier.new (us ++ map (use_by t) insts.now)) }
    ensures noted { IfOk result (λ r. (t : TypeUsed) (us : List Use) → IsType of.now parent visible.now failures.old t → AreEarlier earlier.old us → failures.new ≡ with_all (flat_map of_use (seens t us insts.now)) failures.old) }
    ensures given { IfOk result (λ r. (t : TypeUsed) (us : List Use) → IsType of.now parent visible.now failures.old t → AreEarlier earlier.old us → map pair_of r.items ≡ flat_map (given_in t) (seens t us insts.now)) }
{
    let mut list = Vec::new(alloc);
    for inst in insts {
        let dims = judge_instance(
            alloc, inst, of.def, &of.alias, parent, visible, earlier, of.given, failures,
        )?;
        let primary = is_no_alias(&of.alias) & is_single_reg(inst, of.def.kind);
        earlier.push(&inst.name, primary)?;
        add(&mut list, inst, dims)?;
    }
    Ok(list)
}
