//! The values of a definition's parameters at a use.

ghost use Rattle.std.specs.Prelude.{◌≡◌, option_and_then, option_map, slice_get};
ghost use Rattle.rdl_values.specs.Seen.{bound_of, val_of};

use crate::defaults::Defaults;
use crate::firsts::Firsts;
use rb_base::NoMemory;
use rdl_tree::{Bound, Name, Value};
use std::alloc::Global;
use std::rc::Rc;

/// The values of the first parameters of a definition at a use: those that are put over them, of two of one name the first, and else those
/// that the text has at all uses.
#[derive(Drop)]
pub struct Parameters<'a> {
    defaults: Rc<Defaults<'a>>,
    // How many of them are seen.
    upto: usize,
    places: Firsts<'a>,
    touched: Vec<Bound<'a>>,
}

// The value at a place.
fn value_at<'a>(list: &[Bound<'a>], place: usize) -> Option<Value<'a>>
    ensures { option_map val_of result ≡ option_map (λ b. b.1) (option_map bound_of (slice_get list.now place)) }
{
    list.get(place).map(|bound| bound.value)
}

impl<'a> Parameters<'a> {
    ghost use Rattle.std.specs.Prelude.{◌≡◌, ◌==◌, ℕ, [], ◌∷◌, ◌++◌, IfOk, OnOk, length, map, option_map, take};
    ghost use Rattle.rdl_values.specs.Parameters.{Bound as BoundOf};
    ghost use Rattle.rdl_values.specs.Seen.{bound_of, val_of};
    ghost use Rattle.rdl_values.specs.Values.{entry_named};
    ghost use Rattle.rdl_values.specs.Kept.{AreDefaults};
    ghost use Rattle.rdl_values.specs.Over.{IsOver};
    ghost use Rattle.rdl_values.specs.Overlaid.{AreApart, Plain, overlaid};

    /// None of them are seen, and nothing is put over them.
    pub fn new(alloc: Global, defaults: Rc<Defaults<'a>>) -> Self
        ensures { (xs : Plain) → AreDefaults defaults.entry.value xs → IsOver result xs 0 [] }
    {
        Parameters {
            defaults,
            upto: 0,
            places: Firsts::new(alloc),
            touched: Vec::new(alloc),
        }
    }

    /// All of them are seen, with these put over them.
    pub fn of(
        alloc: Global,
        defaults: Rc<Defaults<'a>>,
        touched: &[Bound<'a>],
    ) -> Result<Self, NoMemory>
        ensures { IfOk result (λ p. (xs : Plain) → AreDefaults defaults.entry.value xs → AreApart xs → IsOver p xs (length xs) (map bound_of touched.now)) }
    {
        let upto = defaults.len();
        let mut parameters = Parameters::new(alloc, defaults);
        for bound in touched {
            parameters.put(bound.name, bound.value)?;
        }
        parameters.see(upto);
        Ok(parameters)
    }

    /// Whether the definition has none.
    pub fn is_empty(&self) -> bool
        ensures { (xs : Plain) (k : ℕ) (t : BoundOf) → IsOver self.now xs k t → result ≡ (length xs == 0) }
    {
        self.defaults.is_empty()
    }

    /// So many of them are seen.
    pub fn see(&mut self, upto: usize)
        ensures { (xs : Plain) (k : ℕ) (t : BoundOf) → IsOver self.old xs k t → AreApart (take upto xs) → IsOver self.new xs upto t }
    {
        self.upto = upto;
    }

    /// Puts a value over that of a parameter, of two of one name the first.
    pub fn put(&mut self, name: Name<'a>, value: Value<'a>) -> Result<(), NoMemory>
        ensures { OnOk result ((xs : Plain) (k : ℕ) (t : BoundOf) → IsOver self.old xs k t → IsOver self.new xs k (t ++ ((name.entry.text.now, val_of value.entry) ∷ []))) }
    {
        let at = self.touched.len();
        self.places.put(name.text, at)?;
        self.touched.push(Bound { name, value })?;
        Ok(())
    }

    /// What is put over them, in order.
    pub fn touched(&self) -> &[Bound<'a>]
        ensures { (xs : Plain) (k : ℕ) (t : BoundOf) → IsOver self.now xs k t → map bound_of result.now ≡ t }
    {
        &self.touched
    }

    // What is put over the parameter of a name.
    fn put_value(&self, name: &[u8]) -> Option<Value<'a>>
        ensures { (xs : Plain) (k : ℕ) (t : BoundOf) → IsOver self.now xs k t → option_map val_of result ≡ entry_named name.now t }
    {
        let at = self.places.find(name)?;
        value_at(&self.touched, at)
    }

    /// The value of the parameter of a name, if it is seen.
    pub fn value(&self, name: &[u8]) -> Option<Value<'a>>
        ensures { (xs : Plain) (k : ℕ) (t : BoundOf) → IsOver self.now xs k t → option_map val_of result ≡ entry_named name.now (overlaid (take k xs) t) }
    {
        let at = self.defaults.find(name)?;
        if at >= self.upto {
            return None;
        }
        match self.put_value(name) {
            Some(value) => Some(value),
            None => self.defaults.value(at),
        }
    }
}
