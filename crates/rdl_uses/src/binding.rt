//! The values of a definition's parameters at a use, over those that its text has at all uses.

ghost use Rattle.std.specs.Prelude.{◌≡◌, ◌<◌, ◌≤◌, ℕ, IfOk, Some, false, is_some, length, slice_get, take};
ghost use Rattle.rdl_values.specs.Bodies.{Closure};
ghost use Rattle.rdl_values.specs.Faults as faults;
ghost use Rattle.rdl_values.specs.Parameters as parameters;
ghost use Rattle.rdl_values.specs.Parameters.{Bound as BoundOf, is_bound};
ghost use Rattle.rdl_values.specs.Seen.{outcome_of};
ghost use Rattle.rdl_values.specs.Uses.{Use};
ghost use Rattle.rdl_failures.specs.Noted.{IsNoted};
ghost use Rattle.rdl_values.specs.Kept.{AreDefaultsOf};
ghost use Rattle.rdl_values.specs.Over.{IsOver};
ghost use Rattle.rdl_values.specs.Overlaid.{AreApart, Plain, overlaid, plain_of};
ghost use Rattle.rdl_uses.specs.Binding.{AreValues, IsFront, IsSite};

use crate::arguments::Arguments;
use crate::typing::{default_typed, typed};
use rb_base::{NoMemory, Place};
use rdl_base::{Fault, Rule};
use rdl_failures::Failures;
use rdl_tree::{Param, Value};
use rdl_values::{Chain, Defaults, Parameters, Places, reads_of};
use std::alloc::Global;
use std::rc::Rc;

// The parameter at a place.
fn param_at<'p, 'a>(params: &'p [Param<'a>], at: usize) -> &'p Param<'a>
    requires { at < length params.now }
    ensures { slice_get params.now at ≡ Some result.now }
{
    &params[at]
}

// The value of the parameter behind those that are seen, none of which has its name: E6 where it has neither an argument nor a default.
fn value_behind<'a>(
    alloc: Global,
    seen: &Parameters<'a>,
    param: &Param<'a>,
    arguments: &Arguments<'a>,
    outside: &Chain<'_, '_, '_, 'a>,
    inside: &[usize],
    place: Place,
) -> Result<Result<Value<'a>, Fault>, NoMemory>
    ensures { IfOk result (λ o. (u : Use) (c : Closure) (xs : Plain) (k : ℕ) (t : BoundOf) → IsSite arguments.now outside.now inside.now place u c → IsOver seen.now xs k t
        → is_bound param.now.name (overlaid (take k xs) t) ≡ false → outcome_of o ≡ parameters.value_at u c.scope (overlaid (take k xs) t) param.now) }
{
    if let Some(value) = arguments.value(&param.name) {
        return Ok(typed(param, &value, outside));
    }
    match &param.default {
        Some(value) => {
            let reads = reads_of(alloc, value, seen)?;
            Ok(default_typed(param, value, &reads, outside.tables, inside))
        }
        None => Ok(Err(Fault {
            place,
            rule: Rule::E6,
        })),
    }
}

// The values of the parameters up to a place, no two of which have one name: each that the use touches, in order, until one fails. Where
// one has another value than by the text, those whose defaults name it are due.
#[tactic(auto, using(crate::proofs::Dueness::due_none))]
fn bind_front<'a>(
    alloc: Global,
    params: &[Param<'a>],
    upto: usize,
    defaults: &Rc<Defaults<'a>>,
    arguments: &Arguments<'a>,
    outside: &Chain<'_, '_, '_, 'a>,
    inside: &[usize],
    place: Place,
    failures: &mut Failures,
) -> Result<Option<Parameters<'a>>, NoMemory>
    requires kept { AreDefaultsOf defaults.now.value params.now }
    requires within { upto ≤ length params.now }
    requires apart { AreApart (take upto (plain_of params.now)) }
    ensures { IfOk result (λ r. (u : Use) (c : Closure) → c.def.params.now ≡ params.now → IsSite arguments.now outside.now inside.now place u c → IsFront u c.scope params.now upto failures.old failures.new r) }
{
    let mut seen = Parameters::new(alloc, defaults.clone()?);
    let mut due = Places::new(alloc);
    let mut from = 0;
    while let Some(at) = arguments.next_touched(defaults, &due, from, upto) {
        seen.see(at);
        let param = param_at(params, at);
        let outcome = value_behind(alloc, &seen, param, arguments, outside, inside, place)?;
        match failures.value_of(outcome)? {
            Some(value) => {
                defaults.put_readers(&mut due, at, &value)?;
                seen.put(param.name, value)?;
            }
            None => return Ok(None),
        }
        from = at + 1;
    }
    Ok(Some(seen))
}

/// The values of a definition's parameters at a use, each its argument, or else its default: those that its text has at all uses, with
/// those that the use touches put over them. Where one has none, its failure is put in, and what is behind it has no value: E6 where there
/// is neither argument nor default or a name stands twice, and the V rules. Arguments see `outside`, and defaults the parameters before
/// them and the bodies round the definition's text, which are `inside` by their numbers in the same list; E6 stands where the name of the
/// type does.
pub fn bind<'a>(
    alloc: Global,
    params: &[Param<'a>],
    defaults: &Rc<Defaults<'a>>,
    arguments: &Arguments<'a>,
    outside: &Chain<'_, '_, '_, 'a>,
    inside: &[usize],
    place: Place,
    failures: &mut Failures,
) -> Result<Option<Parameters<'a>>, NoMemory>
    requires { AreDefaultsOf defaults.now.value params.now }
    ensures noted { IfOk result (λ r. (u : Use) (c : Closure) → c.def.params.now ≡ params.now → IsSite arguments.now outside.now inside.now place u c → IsNoted (faults.failures (parameters.bound_of u c)) (is_some r) failures.old failures.new) }
    ensures values { IfOk result (λ r. (u : Use) (c : Closure) → c.def.params.now ≡ params.now → IsSite arguments.now outside.now inside.now place u c → AreValues params.now (parameters.bound_of u c) r) }
{
    let twice = defaults.twice();
    let upto = twice.unwrap_or(params.len());
    let front = bind_front(
        alloc, params, upto, defaults, arguments, outside, inside, place, failures,
    )?;
    let Some(mut seen) = front else {
        return Ok(None);
    };
    let Some(at) = twice else {
        seen.see(params.len());
        return Ok(Some(seen));
    };
    failures.add(Fault {
        place: param_at(params, at).name.place,
        rule: Rule::E6,
    })?;
    Ok(None)
}
