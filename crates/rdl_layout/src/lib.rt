//! Where instances of a body start and which bits fields have, by numbers, and which positions may be shared.
#![tactic(auto)]

mod bits;
mod body;
mod claim;
mod extent;
mod ground;
mod part;
mod placing;
mod register;
mod rounding;

pub use bits::{Field, FieldBits, bit_faults, bits_of};
pub use body::{Body, lay};
pub use claim::{Claim, clashing};
pub use extent::{Extent, Form, Side, Tenant};
pub use part::{Mode, Part};
pub use register::{Register, register_faults};
