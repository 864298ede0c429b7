//! The enumerations of all open bodies.

use crate::body::BodyEnums;
use crate::distinct::{EnumKey, key_of};
use rb_base::NoMemory;
use rdl_bodies::Bodies;
use rdl_tree::{EnumValues, Name};
use std::alloc::Global;

/// The enumerations of open bodies, by the numbers of the bodies.
#[derive(Drop)]
pub(crate) struct Enums<'a> {
    bodies: Vec<BodyEnums<'a>>,
}

impl<'a> Enums<'a> {
    ghost use Rattle.std.specs.Prelude.{◌≡◌, ℕ, List, IfOk, option_copied, option_map, slice_get};
    ghost use Rattle.rdl_values.specs.Values.{Around, visible_enum};
    ghost use Rattle.rdl_bodies.specs.Sited.{HaveNames};
    ghost use Rattle.rdl_bodies.specs.declared.bodies.Bodies.{Bodies as AnyBodies};
    ghost use Rattle.rdl_encodings.specs.Enums.{AreEnumsOfBodies, enum_at, enum_found};
    ghost use Rattle.rdl_encodings.specs.Keyed.{enum_of_key};

    /// Those of no body.
    pub fn none(alloc: Global) -> Self {
        Enums {
            bodies: Vec::new(alloc),
        }
    }

    /// Those of all these bodies, in time for their enumerations.
    pub fn of(alloc: Global, bodies: &Bodies<'_, 'a>) -> Result<Self, NoMemory>
        ensures { IfOk result (λ t. AreEnumsOfBodies t bodies.now) }
    {
        let mut list = Vec::new(alloc);
        'bodies: while let Some(body) = bodies.body(list.len()) {
            let enums = BodyEnums::of(alloc, body.enums)?;
            list.push(enums)?;
        }
        Ok(Enums { bodies: list })
    }

    // The enumerations of the body of a number.
    fn body(&self, number: usize) -> Option<&BodyEnums<'a>>
        ensures { option_copied result ≡ slice_get self.now.bodies.items number }
    {
        self.bodies.get(number)
    }

    /// The enumeration that a name means in the bodies of these numbers, the nearest first (SystemRDL 2.0, 5.1.4): the number of the
    /// body that has it, and its number there.
    pub fn find(&self, numbers: &[usize], name: &Name<'a>) -> Option<(usize, usize)>
        ensures { (bodies : AnyBodies) (around : Around) → AreEnumsOfBodies self.now bodies → HaveNames bodies.list.items numbers.now around → visible_enum around name.now ≡ option_map (enum_found self.now name.now.text.now) result }
    {
        for number in numbers {
            let Some(body) = self.body(*number) else {
                return None;
            };
            if let Some(within) = body.number(name) {
                return Some((*number, within));
            }
        }
        None
    }

    // The enumeration of a number of a body.
    fn at(&self, body: usize, number: usize) -> Option<EnumValues<'a>>
        ensures { result ≡ enum_at (slice_get self.now.bodies.items body) number }
    {
        match self.body(body) {
            Some(enums) => enums.at(number),
            None => None,
        }
    }

    /// What decides which enumeration the one of a number of a body is.
    pub fn key(&self, alloc: Global, body: usize, number: usize) -> Result<EnumKey<'a>, NoMemory>
        ensures { IfOk result (λ key. (name : List ℕ) → enum_of_key name key ≡ enum_found self.now name (body, number)) }
    {
        match self.at(body, number) {
            Some(of) => key_of(alloc, &of),
            None => Ok(EnumKey {
                place: 0,
                entries: Vec::new(alloc),
            }),
        }
    }
}
