//! The failures of instances of a type that is not visible.

ghost use Rattle.std.specs.Prelude.{◌≡◌, List, ◌++◌, map, flat_map, OnOk};
ghost use Rattle.rdl_values.specs.Phase3.{of_use};
ghost use Rattle.rdl_values.specs.Uses.{Use};
ghost use Rattle.rdl_failures.specs.Noted.{with_all};
ghost use Rattle.rdl_uses.specs.Before.{AreEarlier};
ghost use Rattle.rdl_uses.specs.Unknown.{UnknownType, unknown_by, unknown_seens};

use crate::earlier::Earlier;
use rb_base::{NoMemory, Place};
use rdl_base::Rule;
use rdl_failures::Failures;
use rdl_tree::Inst;

/// Puts in all failures of the instances of a type that isn't visible, whose name stands at the place: E3 there, and E4.
pub fn judge_unknown<'a>(
    insts: &'a [Inst<'a>],
    place: Place,
    earlier: &mut Earlier<'a>,
    failures: &mut Failures,
) -> Result<(), NoMemory>
    ensures earlier { OnOk result ((t : UnknownType) (us : List Use) → t.place ≡ place → AreEarlier earlier.old us → AreEarlier earlier.new (us ++ map (unknown_by t) insts.now)) }
    ensures noted { OnOk result ((t : UnknownType) (us : List Use) → t.place ≡ place → AreEarlier earlier.old us → failures.new ≡ with_all (flat_map of_use (unknown_seens t us insts.now)) failures.old) }
{
    for inst in insts {
        let name = &inst.name;
        failures.note(earlier.has(name), Rule::E4, name.place)?;
        failures.note(true, Rule::E3, place)?;
        earlier.push(name, false)?;
    }
    Ok(())
}
