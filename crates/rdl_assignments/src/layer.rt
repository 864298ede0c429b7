//! The assignments of one layer, as they are read.

ghost use Rattle.std.specs.Prelude.{◌≡◌, ◌++◌, OnOk, option_to_list};

use crate::allowed::Allowed;
use crate::set::{ValidAssignment, judge_set};
use crate::taken::AssignedProps;
use rb_base::NoMemory;
use rdl_failures::Failures;
use rdl_tree::Set;
use rdl_values::Chain;
use std::alloc::Global;

// Puts an assignment behind the others, if it gives something.
fn push<'a>(
    list: &mut Vec<ValidAssignment<'a>>,
    given: Option<ValidAssignment<'a>>,
) -> Result<(), NoMemory>
    ensures { OnOk result (list.new.items ≡ list.old.items ++ option_to_list given.entry) }
{
    match given {
        Some(given) => {
            list.push(given)?;
            Ok(())
        }
        None => Ok(()),
    }
}

/// The assignments of one layer: the properties that they assign, and what those give that fail no rule, in text order.
#[derive(Drop)]
pub struct Layer<'a> {
    pub(crate) taken: AssignedProps,
    pub given: Vec<ValidAssignment<'a>>,
}

impl<'a> Layer<'a> {
    ghost use Rattle.std.specs.Prelude.{◌++◌, [], ◌∷◌, ℕ, Bool, List, IfOk, OnOk};
    ghost use Rattle.rdl_base.specs.declared.fault.Fault.{Fault};
    ghost use Rattle.rdl_props.specs.declared.prop.Prop.{Prop};
    ghost use Rattle.rdl_values.specs.Bodies.{Scope, around};
    ghost use Rattle.rdl_failures.specs.Shown.{IsShown};
    ghost use Rattle.rdl_layers.specs.Meanings.{Assignment};
    ghost use Rattle.rdl_assignments.specs.Allowed.{is_allowed};
    ghost use Rattle.rdl_assignments.specs.Layers.{IsLayer};

    /// No assignments yet.
    pub fn new(alloc: Global) -> Self
        ensures { (legal : Prop → Bool) (body : ℕ) (start : List Fault) → IsLayer legal body result start start [] }
    {
        Layer {
            taken: AssignedProps::new(alloc),
            given: Vec::new(alloc),
        }
    }

    /// No assignments yet, and room for what so many give.
    pub(crate) fn with_room(alloc: Global, room: usize) -> Result<Self, NoMemory>
        ensures { IfOk result (λ r. (legal : Prop → Bool) (body : ℕ) (start : List Fault) → IsLayer legal body r start start []) }
    {
        Ok(Layer {
            taken: AssignedProps::new(alloc),
            given: Vec::with_capacity(alloc, room)?,
        })
    }

    /// Reads an assignment in the body of this number behind the others: puts in its failures, V rules in its value, P1 to P6 and P8.
    pub fn read(
        &mut self,
        set: &'a Set<'a>,
        allowed: Allowed,
        body: u32,
        visible: &Chain<'_, '_, '_, 'a>,
        failures: &mut Failures,
    ) -> Result<(), NoMemory>
        ensures { OnOk result ((start : List Fault) (before : List Assignment) (scope : Scope) → IsShown visible.now (around scope) → IsLayer (is_allowed allowed) body self.old start failures.old before
            → IsLayer (is_allowed allowed) body self.new start failures.new (before ++ (record { set_ = set.now; scope = scope } ∷ []))) }
    {
        let given = judge_set(set, allowed, body, visible, &mut self.taken, failures)?;
        push(&mut self.given, given)
    }
}
