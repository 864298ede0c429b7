//! All uses of a type by the instances of one item.

ghost use Rattle.std.specs.Prelude.{◌≡◌, ◌≢◌, List, [], ◌++◌, map, flat_map, IfOk};
ghost use Rattle.rdl_tree.specs.declared.item.Inst.{Inst as AnyInst};
ghost use Rattle.rdl_values.specs.Parameters.{bound_of};
ghost use Rattle.rdl_values.specs.Phase3.{of_use};
ghost use Rattle.rdl_values.specs.Uses.{Use};
ghost use Rattle.rdl_values.specs.Kept.{AreDefaultsOf};
ghost use Rattle.rdl_failures.specs.Noted.{with_all};
ghost use Rattle.rdl_uses.specs.Binding.{AreValues};
ghost use Rattle.rdl_uses.specs.Applied.{IsTypeOf};
ghost use Rattle.rdl_uses.specs.Before.{AreEarlier};
ghost use Rattle.rdl_uses.specs.Given.{TypeUsed, given_in, pair_of, seens, use_by};

use crate::earlier::Earlier;
use crate::holder::Parent;
use crate::instances::{SizedInst, Visited, judge_instances};
use crate::values::judge_values;
use rb_base::{NoMemory, Place};
use rdl_failures::Failures;
use rdl_tree::{Def, Insts, Name};
use rdl_values::{Chain, Defaults, Parameters};
use std::alloc::Global;
use std::rc::Rc;

/// The instances of an item that give nodes, and the values of their definition's parameters, if it has them.
#[derive(Drop)]
pub struct Uses<'a> {
    pub parameters: Option<Parameters<'a>>,
    pub given: Vec<SizedInst<'a>>,
}

/// Puts in all failures of the uses of a visible definition by the instances of one item, which are aliases of a primary where one is
/// named. What the definition's parameters have at all uses is given. The name of the type stands at the place; the bodies round the
/// definition's text are `inside`, by their numbers in the list that is visible. Arguments and parameters are judged once for all instances.
pub fn judge_uses<'a>(
    alloc: Global,
    insts: &'a Insts<'a>,
    def: &Def<'a>,
    defaults: &Rc<Defaults<'a>>,
    alias: Option<Name<'a>>,
    place: Place,
    parent: Parent,
    visible: &Chain<'_, '_, '_, 'a>,
    inside: &[usize],
    earlier: &mut Earlier<'a>,
    failures: &mut Failures,
) -> Result<Uses<'a>, NoMemory>
    requires { AreDefaultsOf defaults.now.value def.now.params.now }
    ensures earlier { IfOk result (λ r. (t : TypeUsed) (us : List Use) → IsTypeOf def.now alias.entry insts.now.args.now place parent visible.now inside.now t → AreEarlier earlier.old us → AreEarlier earlier.new (us ++ map (use_by t) insts.now.list.now)) }
    ensures noted { IfOk result (λ r. (t : TypeUsed) (us : List Use) → IsTypeOf def.now alias.entry insts.now.args.now place parent visible.now inside.now t → AreEarlier earlier.old us → failures.new ≡ with_all (flat_map of_use (seens t us insts.now.list.now)) failures.old) }
    ensures given { IfOk result (λ r. (t : TypeUsed) (us : List Use) → IsTypeOf def.now alias.entry insts.now.args.now place parent visible.now inside.now t → AreEarlier earlier.old us → map pair_of r.given.items ≡ flat_map (given_in t) (seens t us insts.now.list.now)) }
    ensures values { IfOk result (λ r. (t : TypeUsed) → IsTypeOf def.now alias.entry insts.now.args.now place parent visible.now inside.now t → insts.now.list.now ≢ [] → (i : AnyInst) → AreValues def.now.params.now (bound_of (use_by t i) t.closure) r.parameters) }
{
    if insts.list.is_empty() {
        return Ok(Uses {
            parameters: None,
            given: Vec::new(alloc),
        });
    }
    let values = judge_values(
        alloc, def, defaults, insts.args, place, visible, inside, failures,
    )?;
    let of = Visited {
        def,
        alias,
        given: values.given,
    };
    let given = judge_instances(alloc, insts.list, &of, parent, visible, earlier, failures)?;
    Ok(Uses {
        parameters: values.parameters,
        given,
    })
}
