//! What was judged of paths and properties.

use crate::marks::Marks;
use rb_base::NoMemory;
use rdl_props::Prop;
use std::alloc::Global;

/// The properties that were assigned to paths, by the numbers of these: those that are legal on the kinds of all nodes there, and those
/// that aren't.
#[derive(Drop)]
pub(crate) struct Seen {
    legal: Marks,
    illegal: Marks,
}

impl Seen {
    ghost use Rattle.std.specs.Prelude.{◌≡◌, ◌==◌, ◌&&◌, ◌||◌, ℕ, Bool, false, true, IfSome, OnOk, Some};
    ghost use Rattle.rdl_props.specs.Same.{same_prop};
    ghost use Rattle.rdl_props.specs.declared.prop.Prop.{Prop as AnyProp};
    ghost use Rattle.rdl_dynamic.specs.Marks.{is_marked};
    ghost use Rattle.rdl_dynamic.specs.Seen.{is_number, marks_of, same_bool};

    /// None yet.
    pub(crate) fn new(alloc: Global) -> Self
        ensures { (ok : Bool) (path : ℕ) (f : AnyProp → Bool) → is_marked (marks_of ok result) path f ≡ false }
    {
        Seen {
            legal: Marks::new(alloc),
            illegal: Marks::new(alloc),
        }
    }

    /// Whether the property is legal at a path, if it was assigned there.
    pub(crate) fn find(&self, path: Option<u32>, prop: Prop) -> Option<bool>
        ensures { IfSome result (λ ok. (u : ℕ) × (path ≡ Some u) × (is_marked (marks_of ok self.now) u (same_prop prop) ≡ true)) }
    {
        let number = path?;
        if self.legal.has(number, prop) {
            return Some(true);
        }
        if self.illegal.has(number, prop) {
            return Some(false);
        }
        None
    }

    /// Puts in whether a property is legal at a path.
    pub(crate) fn add(
        &mut self,
        alloc: Global,
        path: Option<u32>,
        prop: Prop,
        legal: bool,
    ) -> Result<(), NoMemory>
        ensures { OnOk result ((ok : Bool) (u : ℕ) (f : AnyProp → Bool) → is_marked (marks_of ok self.new) u f ≡ (is_marked (marks_of ok self.old) u f || (same_bool ok legal && (is_number path u && f prop)))) }
    {
        let Some(number) = path else {
            return Ok(());
        };
        if legal {
            return self.legal.add(alloc, number, prop);
        }
        self.illegal.add(alloc, number, prop)
    }
}
