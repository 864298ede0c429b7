//! The lines `intr` and `halt` of registers (SystemRDL 2.0, 9.9).

ghost use Rattle.std.specs.Prelude.{◌≡◌};
ghost use Rattle.block_plan.specs.Plan.{members_of};
ghost use Rattle.block_plan.specs.Lines as spec;

use crate::plan::Plan;
use rb_effects::is_on;
use rb_model::{Field, Mask};

/// Whether an interrupt counts for the line `halt`, or for `intr`.
pub fn has_line(halt: bool, field: &Field) -> bool
    ensures { result ≡ spec.has_line halt field.now }
{
    !halt || is_on(field.halt)
}

/// The mask of an interrupt for the line `halt`, or for `intr`.
pub fn line_mask(halt: bool, field: &Field) -> Mask
    ensures { result ≡ spec.line_mask halt field.now }
{
    if halt { field.halt } else { field.enable }
}

/// The interrupts that are listed for a register.
pub fn members_in(plan: &Plan, reg: u32) -> &[u32]
    ensures { result.now ≡ members_of plan.now reg }
{
    match plan.members.get(reg as usize) {
        Some(members) => members,
        None => &[],
    }
}
