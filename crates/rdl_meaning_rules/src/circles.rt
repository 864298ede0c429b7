//! References that go in a circle.

ghost use Rattle.std.specs.Prelude.{◌≡◌, OnOk};
ghost use Rattle.rdl_failures.specs.Noted.{with_all};

use rb_base::NoMemory;
use rdl_base::Fault;
use rdl_failures::Failures;

/// Puts in failures that were found otherwise, as those of R7. The only error is want of memory.
pub fn judge_circles(faults: &[Fault], failures: &mut Failures) -> Result<(), NoMemory>
    ensures { OnOk result (failures.new ≡ with_all faults.now failures.old) }
{
    for fault in faults {
        failures.add(*fault)?;
    }
    Ok(())
}
