//! The set of failures.

use rb_base::{NoMemory, Place};
use rdl_base::{Fault, Rule, order_of_faults};
use std::alloc::Global;
use std::collections::BTreeSet;
use std::marker::Model;

/// The failures found so far, each once: by place, and at one place in the order of the table of rules. Contracts see it as the
/// list of them in that order.
#[derive(Drop)]
pub struct Failures {
    set: BTreeSet<Fault>,
}

impl Model for Failures {
    ghost use Rattle.std.specs.Prelude.{List};
    ghost use Rattle.rdl_base.specs.declared.fault.Fault.{Fault};

    ghost Value = { List Fault };

    ghost view = { λ f. f.set.keys };
}

impl Failures {
    ghost use Rattle.std.specs.Prelude.{◌≡◌, [], OnOk, OnErr, IfOk};
    ghost use Rattle.std.specs.Result.{result_ok};
    ghost use Rattle.rdl_values.specs.Faults.{at_, failures, when};
    ghost use Rattle.rdl_values.specs.Parts as parts;
    ghost use Rattle.rdl_values.specs.Verdict.{with};
    ghost use Rattle.rdl_failures.specs.Noted.{IsNoted, with_all};

    /// No failures yet.
    pub fn new(alloc: Global) -> Self
        ensures { result ≡ [] }
    {
        Failures {
            set: BTreeSet::new(alloc),
        }
    }

    /// Puts a failure in, if it isn't there. Where memory is wanting nothing changes.
    pub fn add(&mut self, fault: Fault) -> Result<(), NoMemory>
        ensures added { OnOk result (self.new ≡ with fault self.old) }
        ensures unchanged { OnErr result (self.new ≡ self.old) }
    {
        order_of_faults();
        self.set.insert(fault)?;
        Ok(())
    }

    /// Puts in the failure of a rule at a place where it fails, and answers whether it doesn't.
    pub fn note(&mut self, fails: bool, rule: Rule, place: Place) -> Result<bool, NoMemory>
        ensures { IfOk result (λ clean. IsNoted (when fails (at_ rule place)) clean self.old self.new) }
    {
        if fails {
            self.add(Fault { place, rule })?;
        }
        Ok(!fails)
    }

    /// Puts in the failure of what has no value, and answers the value of what has one.
    pub fn value_of<T: Drop>(&mut self, outcome: Result<T, Fault>) -> Result<Option<T>, NoMemory>
        ensures value { IfOk result (λ v. v ≡ result_ok outcome) }
        ensures noted { OnOk result (self.new ≡ with_all (failures outcome) self.old) }
    {
        match outcome {
            Ok(value) => Ok(Some(value)),
            Err(fault) => {
                self.add(fault)?;
                Ok(None)
            }
        }
    }

    /// Whether there are none.
    pub fn is_empty(&self) -> bool
        ensures { result ≡ parts.is_empty self.now }
    {
        self.set.is_empty()
    }

    /// The failures as a list.
    pub fn into_list(self, alloc: Global) -> Result<Vec<Fault>, NoMemory>
        ensures { IfOk result (λ list. list.items ≡ self) }
    {
        Ok(self.set.into_iter().collect(alloc)?)
    }
}
