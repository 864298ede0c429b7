//! Where the values of a program stand in a narrow one.
use crate::fitting::{Unfit, number_of, place_of, sum_of};
use crate::operation::Operation;
use crate::turns::order_of;
use std::alloc::Global;

/// The places of a program's values. Behind those of pins and registers, which stay, are the constants, each once, and
/// behind them the operations, in another order.
#[derive(Drop)]
pub(crate) struct Arrangement {
    pub first: usize,
    pub constants: Vec<u64>,
    /// The old places of the operations in this order.
    pub order: Vec<usize>,
    /// The place of each old place.
    pub places: Vec<u32>,
}

/// The constants of operations, each once.
fn constants_of(alloc: Global, operations: &[Operation]) -> Result<Vec<u64>, Unfit> {
    let mut constants = Vec::new(alloc);
    for operation in operations {
        if let Operation::Constant(value) | Operation::Guard { value, .. } = *operation {
            let number = number_of(value)?;
            constants.push(number)?;
        }
    }
    constants.sort_unstable();
    constants.dedup();
    Ok(constants)
}

impl Arrangement {
    ghost use Rattle.std.specs.Prelude.{◌≡◌, ℕ, ◌+◌, ◌<◌, true, IfOk, length, slice_index, slice_index_or};
    ghost use Rattle.std.specs.Bool.{OnTrue};
    ghost use Rattle.cyc_sim.specs.Arranged.{IsArrangement, IsConstant, IsPlaced, IsTurn};
    ghost use Rattle.cyc_sim.specs.Operations.{are_places, values_in};
    ghost use Rattle.cyc_sim.specs.declared.operation.Operation.{Operation};

    /// The places of the operations behind so many first places.
    pub fn of(alloc: Global, first: usize, operations: &[Operation]) -> Result<Arrangement, Unfit>
        ensures first { IfOk result (λ a. a.first ≡ first) }
        ensures each { IfOk result (λ a. IsArrangement a operations.now) }
    {
        let bare = Arrangement {
            first,
            constants: constants_of(alloc, operations)?,
            order: order_of(alloc, operations, first)?,
            places: Vec::new(alloc),
        };
        let mut places = bare.first_places(alloc)?;
        bare.add_constants(operations, &mut places)?;
        bare.write_turns(&mut places)?;
        let Arrangement {
            constants,
            order,
            ..
        } = bare;
        Arrangement {
            first,
            constants,
            order,
            places,
        }
        .checked(operations)
    }

    /// This arrangement, if it is one of these operations.
    fn checked(self, operations: &[Operation]) -> Result<Arrangement, Unfit>
        ensures first { IfOk result (λ a. a.first ≡ self.first) }
        ensures each { IfOk result (λ a. IsArrangement a operations.now) }
    {
        if !self.keeps_first() {
            return Err(Unfit::Wide);
        }
        if !self.places_each(operations) {
            return Err(Unfit::Wide);
        }
        Ok(self)
    }

    /// The place behind the constants.
    pub fn limit(&self) -> Result<usize, Unfit>
        ensures { IfOk result (λ n. n ≡ self.now.first + length self.now.constants.items) }
    {
        sum_of(self.first, self.constants.len())
    }

    /// The places of the first places, which stay.
    fn first_places(&self, alloc: Global) -> Result<Vec<u32>, Unfit> {
        let mut places = Vec::new(alloc);
        for place in 0..self.first {
            let place = place_of(place)?;
            places.push(place)?;
        }
        Ok(places)
    }

    /// Adds the places of constants, and room for those of the other operations.
    fn add_constants(&self, operations: &[Operation], places: &mut Vec<u32>) -> Result<(), Unfit> {
        for operation in operations {
            let place = match *operation {
                Operation::Constant(value) => self.constant(value)?,
                _ => 0,
            };
            places.push(place)?;
        }
        Ok(())
    }

    /// Writes the places of the other operations.
    fn write_turns(&self, places: &mut Vec<u32>) -> Result<(), Unfit> {
        let limit = self.limit()?;
        for (index, old) in self.order.iter().enumerate() {
            let sum = sum_of(limit, index)?;
            let place = place_of(sum)?;
            if *old < places.len() {
                places[*old] = place;
            }
        }
        Ok(())
    }

    /// The place of an old place.
    pub fn place(&self, old: usize) -> Result<u32, Unfit>
        ensures { IfOk result (λ p. p ≡ slice_index self.now.places.items old) }
    {
        if old < self.places.len() {
            Ok(self.places[old])
        } else {
            Err(Unfit::Wide)
        }
    }

    /// The place of a constant.
    pub fn constant(&self, value: u128) -> Result<u32, Unfit>
        ensures { IfOk result (λ p. IsConstant self.now p value) }
    {
        let number = number_of(value)?;
        match self.constants.binary_search(&number) {
            Ok(index) => place_of(sum_of(self.first, index)?),
            Err(_) => Err(Unfit::Wide),
        }
    }

    /// Whether a place stays.
    fn keeps(&self, place: usize) -> bool
        ensures { OnTrue result (slice_index self.now.places.items place ≡ place) }
    {
        place < self.places.len() && self.places[place] as usize == place
    }

    /// Whether the first places stay.
    fn keeps_first(&self) -> bool
        ensures { OnTrue result ((p : ℕ) → p < self.now.first → slice_index self.now.places.items p ≡ p) }
    {
        for place in 0..self.first {
            if !self.keeps(place) {
                return false;
            }
        }
        true
    }

    /// Whether a place is that of a constant.
    fn has_constant(&self, place: usize, value: u128) -> bool
        ensures { OnTrue result (IsConstant self.now place value) }
    {
        if place < self.first {
            return false;
        }
        let index = place - self.first;
        index < self.constants.len() && u128::from(self.constants[index]) == value
    }

    /// Whether a place is that of the operation which an old place was of.
    fn has_turn(&self, place: usize, old: usize) -> bool
        ensures { OnTrue result (IsTurn self.now place old) }
    {
        let Ok(limit) = self.limit() else {
            return false;
        };
        if place < limit {
            return false;
        }
        let index = place - limit;
        index < self.order.len() && self.order[index] == old
    }

    /// Whether an operation's place is its constant's or its own.
    fn has_placed(&self, old: usize, operation: Operation) -> bool
        ensures { OnTrue result (IsPlaced self.now old operation) }
    {
        let Ok(place) = self.place(old) else {
            return false;
        };
        match operation {
            Operation::Constant(value) => self.has_constant(place as usize, value),
            _ => self.has_turn(place as usize, old),
        }
    }

    /// Whether each operation has a place.
    fn places_each(&self, operations: &[Operation]) -> bool
        ensures { OnTrue result ((k : ℕ) (d : Operation) → k < length operations.now → IsPlaced self.now (self.now.first + k) (slice_index_or operations.now k d)) }
    {
        for (index, operation) in operations.iter().enumerate() {
            let Ok(old) = sum_of(self.first, index) else {
                return false;
            };
            if !self.has_placed(old, *operation) {
                return false;
            }
        }
        true
    }

    /// These places in the arrangement, all of which are below a limit.
    pub fn all(&self, alloc: Global, olds: &[usize], limit: usize) -> Result<Vec<u32>, Unfit>
        ensures same { IfOk result (λ v. v.items ≡ values_in self.now.places.items olds.now) }
        ensures below { IfOk result (λ v. are_places limit v.items ≡ true) }
    {
        let mut places = Vec::new(alloc);
        for old in olds {
            let place = self.place(*old)?;
            if place as usize >= limit {
                return Err(Unfit::Wide);
            }
            places.push(place)?;
        }
        Ok(places)
    }
}
