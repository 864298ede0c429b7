//! A list of failures, sorted.

ghost use Rattle.std.specs.Prelude.{◌≡◌, Contains, IfOk, OnOk};
ghost use Rattle.std.specs.Cmp.{IsEquivalence};
ghost use Rattle.std.specs.Ordering.{eq_by_cmp};
ghost use Rattle.rdl_base.specs.Faults.{fault_cmp};
ghost use Rattle.rdl_base.specs.declared.fault.Fault.{Fault as AnyFault};
ghost use Rattle.rdl_values.specs.Faults.{at_};
ghost use Rattle.rdl_values.specs.Verdict.{IsListOf};
ghost use Rattle.rdl_failures.specs.Sorted.{IsSortedOnce};

use rb_base::NoMemory;
use rdl_base::{Fault, order_of_faults};

/// Sorts items, and keeps one of those that are equal.
fn sort_once<T: Ord + Drop>(items: &mut Vec<T>) -> Result<(), NoMemory>
    ensures sorted { OnOk result (IsSortedOnce T.cmp T.eq items.old.items items.new.items) }
    ensures equivalence { IsEquivalence T.eq }
    ensures ties { (x y : T) → T.eq x y ≡ eq_by_cmp T.cmp x y }
{
    items.sort()?;
    items.dedup();
    Ok(())
}

/// The list of the failures that were collected, as a verdict has it: by place, and at one place in the order of the table of
/// rules, each once. The only error is want of memory.
pub fn listed(faults: Vec<Fault>) -> Result<Vec<Fault>, NoMemory>
    ensures { IfOk result (λ list. IsListOf (λ rule place. Contains faults.items (at_ rule place)) list.items) }
{
    order_of_faults();
    let mut list = faults;
    sort_once(&mut list)?;
    Ok(list)
}
