//! The arguments of a use.

ghost use Rattle.std.specs.Prelude.{◌≡◌, ◌||◌, ℕ, Bool, OnOk, option_map, slice_get};
ghost use Rattle.rdl_values.specs.Places.{IsNextPlace, has_place, is_found};

use rb_base::NoMemory;
use rdl_base::Rule;
use rdl_failures::Failures;
use rdl_tree::{Arg, Expr, Name};
use rdl_values::{Defaults, Firsts, Places};
use std::alloc::Global;

// The value of the argument at a place.
fn value_at<'a>(list: &[Arg<'a>], place: usize) -> Option<Expr<'a>>
    ensures { result ≡ option_map (λ a. a.value) (slice_get list.now place) }
{
    list.get(place).map(|arg| arg.value)
}

// Puts a place that was found among the others.
fn put_found(places: &mut Places, found: Option<usize>) -> Result<(), NoMemory>
    ensures { OnOk result ((k : ℕ) → has_place places.new k ≡ (is_found found k || has_place places.old k)) }
{
    match found {
        Some(place) => places.put(place),
        None => Ok(()),
    }
}

// The first place of two lists of places, by the first of each.
fn first_of(one: Option<usize>, other: Option<usize>) -> Option<usize>
    ensures { (f g : ℕ → Bool) (from : ℕ) → IsNextPlace f from one → IsNextPlace g from other → IsNextPlace (λ k. f k || g k) from result }
{
    match one {
        None => other,
        Some(one) => match other {
            None => Some(one),
            Some(other) => Some(one.min(other)),
        },
    }
}

/// The arguments of a use, of two of one name the first.
#[derive(Drop)]
pub struct Arguments<'a> {
    list: &'a [Arg<'a>],
    places: Firsts<'a>,
    // The places of the parameters that they are given to.
    given: Places,
}

impl<'a> Arguments<'a> {
    ghost use Rattle.std.specs.Prelude.{◌≡◌, ◌<◌, ◌≤◌, List, IfOk, IfSome, take};
    ghost use Rattle.rdl_tree.specs.declared.item.Arg.{Arg as AnyArg};
    ghost use Rattle.rdl_values.specs.Parameters.{argument};
    ghost use Rattle.rdl_tree.specs.declared.item.Param.{Param as AnyParam};
    ghost use Rattle.rdl_failures.specs.Noted.{IsNoted};
    ghost use Rattle.rdl_values.specs.Kept.{AreDefaults};
    ghost use Rattle.rdl_values.specs.Overlaid.{AreApart, plain_of};
    ghost use Rattle.rdl_uses.specs.Arguments.{AreArguments, IsNextTouched};
    ghost use Rattle.rdl_uses.specs.Bound.{bad_args};

    /// The arguments, and whether each is that of a parameter without one before; where it isn't, E6 is put in.
    pub fn judge(
        alloc: Global,
        list: &'a [Arg<'a>],
        defaults: &Defaults<'a>,
        failures: &mut Failures,
    ) -> Result<(Self, bool), NoMemory>
        ensures arguments { IfOk result (λ r. (ps : List AnyParam) → AreDefaults defaults.now (plain_of ps) → AreArguments r.0 ps list.now) }
        ensures noted { IfOk result (λ r. (ps : List AnyParam) → AreDefaults defaults.now (plain_of ps) → IsNoted (bad_args ps list.now) r.1 failures.old failures.new) }
    {
        let mut places = Firsts::new(alloc);
        let mut given = Places::new(alloc);
        let mut clean = true;
        for (index, arg) in list.iter().enumerate() {
            let found = defaults.find(arg.name.text);
            put_found(&mut given, found)?;
            let again = places.put(arg.name.text, index)?;
            clean &= failures.note(found.is_none() | again, Rule::E6, arg.name.place)?;
        }
        let arguments = Arguments {
            list,
            places,
            given,
        };
        Ok((arguments, clean))
    }

    /// The value of the first argument of the name.
    pub fn value(&self, name: &Name) -> Option<Expr<'a>>
        ensures { (ps : List AnyParam) (args : List AnyArg) → AreArguments self.now ps args → result ≡ argument args name.now }
    {
        match self.places.find(name.text) {
            Some(place) => value_at(self.list, place),
            None => None,
        }
    }

    /// The first place from one on up to another, in front of which no two parameters have one name, at which one stands that has an
    /// argument, or whose default has no value by the text, or that is due.
    pub(crate) fn next_touched(
        &self,
        defaults: &Defaults<'a>,
        due: &Places,
        from: usize,
        upto: usize,
    ) -> Option<usize>
        ensures within { IfSome result (λ at. (from ≤ at) × (at < upto)) }
        ensures next { (ps : List AnyParam) (args : List AnyArg) → AreArguments self.now ps args → AreDefaults defaults.now (plain_of ps) → AreApart (take upto (plain_of ps)) → IsNextTouched args ps due.now from upto result }
    {
        let known = first_of(self.given.next(from), defaults.next_needed(from));
        let at = first_of(known, due.next(from))?;
        if at < upto { Some(at) } else { None }
    }
}
