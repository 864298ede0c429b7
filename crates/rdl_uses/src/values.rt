//! The arguments of the uses of a type, and the values of its parameters.

ghost use Rattle.std.specs.Prelude.{◌≡◌, IfOk};
ghost use Rattle.rdl_values.specs.Bodies.{Closure};
ghost use Rattle.rdl_values.specs.Parameters.{bound_of};
ghost use Rattle.rdl_values.specs.Uses.{Use};
ghost use Rattle.rdl_values.specs.Kept.{AreDefaultsOf};
ghost use Rattle.rdl_failures.specs.Noted.{IsNoted};
ghost use Rattle.rdl_uses.specs.Binding.{AreValues};
ghost use Rattle.rdl_uses.specs.Applied.{IsApplied};
ghost use Rattle.rdl_uses.specs.Judged.{of_values};

use crate::arguments::Arguments;
use crate::binding::bind;
use rb_base::{NoMemory, Place};
use rdl_failures::Failures;
use rdl_tree::{Arg, Def};
use rdl_values::{Chain, Defaults, Parameters};
use std::alloc::Global;
use std::rc::Rc;

/// The values of a definition's parameters at some uses, if it has them, and whether neither they nor the arguments have a failure.
#[derive(Drop)]
pub struct Values<'a> {
    pub parameters: Option<Parameters<'a>>,
    pub given: bool,
}

/// Puts in the failures of arguments and of parameters: E6 and the V rules. What the definition's parameters have at all uses is given, and
/// the bodies round its text are `inside`, by their numbers in the list that is visible.
pub fn judge_values<'a>(
    alloc: Global,
    def: &Def<'a>,
    defaults: &Rc<Defaults<'a>>,
    args: &'a [Arg<'a>],
    place: Place,
    visible: &Chain<'_, '_, '_, 'a>,
    inside: &[usize],
    failures: &mut Failures,
) -> Result<Values<'a>, NoMemory>
    requires { AreDefaultsOf defaults.now.value def.now.params.now }
    ensures noted { IfOk result (λ r. (u : Use) (c : Closure) → IsApplied def.now args.now place visible.now inside.now u c → IsNoted (of_values u c) r.given failures.old failures.new) }
    ensures values { IfOk result (λ r. (u : Use) (c : Closure) → IsApplied def.now args.now place visible.now inside.now u c → AreValues def.now.params.now (bound_of u c) r.parameters) }
{
    let (arguments, clean) = Arguments::judge(alloc, args, defaults, failures)?;
    let parameters = bind(
        alloc, def.params, defaults, &arguments, visible, inside, place, failures,
    )?;
    let given = clean & parameters.is_some();
    Ok(Values { parameters, given })
}
