//! The enumerations of all open bodies.

use crate::body::BodyEnums;
use rb_base::NoMemory;
use rdl_bodies::Bodies;
use rdl_tree::Name;
use std::alloc::Global;

/// The greatest numbers of the enumerations of open bodies, by the numbers of the bodies. Most bodies have none.
#[derive(Drop)]
pub struct EnumNumbers<'a> {
    bodies: Vec<Option<Box<BodyEnums<'a>>>>,
}

impl<'a> EnumNumbers<'a> {
    ghost use Rattle.std.specs.Prelude.{◌≡◌, IfOk};
    ghost use Rattle.std.specs.Option.{option_copied};
    ghost use Rattle.rdl_values.specs.Values.{Around};
    ghost use Rattle.rdl_bodies.specs.Sited.{HaveNames};
    ghost use Rattle.rdl_bodies.specs.declared.bodies.Bodies.{Bodies as AnyBodies};
    ghost use Rattle.rdl_facts.specs.Table.{AreNumbersOf, entries_meant, enums_at};
    ghost use Rattle.rdl_facts.specs.Greatest.{IsGreatest};

    /// Those of all these bodies, in time for their enumerations and the entries of these.
    pub fn of(alloc: Global, bodies: &Bodies<'_, 'a>) -> Result<Self, NoMemory>
        ensures { IfOk result (λ t. AreNumbersOf t bodies.now) }
    {
        let mut list = Vec::new(alloc);
        'bodies: while let Some(body) = bodies.body(list.len()) {
            let enums = BodyEnums::kept(alloc, body.enums)?;
            list.push(enums)?;
        }
        Ok(EnumNumbers { bodies: list })
    }

    // The enumerations of the body of a number, if it has any.
    fn body(&self, number: usize) -> Option<&BodyEnums<'a>>
        ensures { option_copied result ≡ enums_at self.now number }
    {
        match self.bodies.get(number) {
            Some(Some(enums)) => Some(&**enums),
            _ => None,
        }
    }

    /// The greatest number of the entries of the enumeration that a name means in the bodies of these numbers, the nearest first
    /// (SystemRDL 2.0, 5.1.4). None where the name means none, or one without entries.
    pub fn greatest(&self, numbers: &[usize], name: &Name<'a>) -> Option<u64>
        ensures { (bodies : AnyBodies) (around : Around) → AreNumbersOf self.now bodies → HaveNames bodies.list.items numbers.now around → IsGreatest result (entries_meant around name.now) }
    {
        for number in numbers {
            let Some(body) = self.body(*number) else {
                continue;
            };
            if let Some(of) = body.number(name) {
                return body.greatest(of);
            }
        }
        None
    }
}
