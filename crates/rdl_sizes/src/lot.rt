//! The instances of a body with their places in the source.

ghost use Rattle.std.specs.Prelude.{◌≡◌, ◌+◌, ◌<◌, ◌≤◌, ◌^◌, Some, max};
ghost use Rattle.std.specs.Option.{option_copied};
ghost use Rattle.rdl_tree.specs.declared.item.Inst.{Inst as AnyInst};
ghost use Rattle.rdl_tree.specs.declared.node.Node.{out-Node};
ghost use Rattle.rdl_values.specs.Values.{Around};
ghost use Rattle.rdl_failures.specs.Shown.{IsShown};
ghost use Rattle.rdl_addr.specs.TextReadings.{IsGiven};

use crate::known::Measure;
use rb_base::Place;
use rdl_addr::part;
use rdl_layout::Part;
use rdl_tree::{Inst, Node};
use rdl_values::Chain;

/// The elements of one instance, as numbers, and the instance's place.
#[derive(Clone, Copy, Debug)]
pub(crate) struct Lot {
    pub place: Place,
    pub part: Part,
}

/// Elements of one instance: how many, the greatest of their sizes, and the greatest of their access widths, in bytes.
#[derive(Clone, Copy, Debug)]
pub(crate) struct Run {
    pub count: u64,
    pub size: u128,
    pub access: u128,
}

impl Run {
    ghost use Rattle.std.specs.Prelude.{◌≡◌, ◌+◌, ◌<◌, ◌≤◌, ◌^◌, max};

    /// No elements.
    pub fn none() -> Run
        ensures { result ≡ (record { count = 0; size = 0; access = 0 }) }
    {
        Run {
            count: 0,
            size: 0,
            access: 0,
        }
    }

    /// With one element more.
    pub fn with(self, measure: Measure) -> Run
        requires { self.count + 1 < 2 ^ 64 }
        ensures { result ≡ (record { count = self.count + 1; size = max measure.size self.size; access = max measure.access self.access }) }
    {
        Run {
            count: self.count + 1,
            size: measure.size.max(self.size),
            access: measure.access.max(self.access),
        }
    }
}

/// A part of an instance that has no text.
fn bare(others: u64, size: u128, access: u128) -> Part
    ensures count { result.others ≡ others }
    ensures bytes { result.size ≡ size }
    ensures width { result.access ≡ access }
{
    Part {
        others,
        size,
        access,
        at: None,
        stride: None,
        align: None,
        is_array: false,
    }
}

/// The part that an instance's text gives, where this is visible.
fn part_of<'a>(inst: Option<&Inst<'a>>, visible: &Chain<'_, '_, '_, 'a>, run: Run) -> Part
    requires { 0 < run.count }
    ensures count { result.others + 1 ≡ run.count }
    ensures bytes { result.size ≡ run.size }
    ensures width { result.access ≡ run.access }
    ensures text { (around : Around) (i : AnyInst) → IsShown visible.now around → option_copied inst.entry ≡ Some i → IsGiven result around i }
{
    let others = run.count - 1;
    match inst {
        Some(inst) => part(inst, visible, others, run.size, run.access),
        None => bare(others, run.size, run.access),
    }
}

/// The instance whose first element this is, and whose elements are these.
pub(crate) fn lot_of<'a>(first: &Node<'a>, visible: &Chain<'_, '_, '_, 'a>, run: Run) -> Lot
    requires { 0 < run.count }
    ensures place { result.place ≡ (out-Node first.now).place }
    ensures count { result.part.others + 1 ≡ run.count }
    ensures bytes { result.part.size ≡ run.size }
    ensures width { result.part.access ≡ run.access }
    ensures text { (around : Around) (i : AnyInst) → IsShown visible.now around → option_copied (out-Node first.now).inst ≡ Some i → IsGiven result.part around i }
{
    Lot {
        place: first.place,
        part: part_of(first.inst, visible, run),
    }
}
