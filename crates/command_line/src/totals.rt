//! What a source of a number of registers has.

ghost use Rattle.std.specs.Prelude.{◌≡◌, IfOk};
ghost use Rattle.command_line.specs.Source.{summary_of};

use rb_base::NoMemory;
use std::alloc::Global;

/// The line that sums up a source of `count` registers: how many registers and fields it has, how many ports its module has, and how many
/// bytes the text of that module. The only error is want of memory.
pub fn summary(alloc: Global, count: u32, bytes: u64) -> Result<Vec<u8>, NoMemory>
    ensures { IfOk result (λ line. line.items ≡ summary_of count bytes) }
{
    let fields = 3 * u64::from(count);
    let ports = 10 + 4 * u64::from(count);
    let line = format!(in alloc;
        "registers {count} fields {fields} ports {ports} bytes {bytes}\n"
    )?;
    Ok(line.into_bytes())
}
