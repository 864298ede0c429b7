//! Through which nodes software touches fields.

ghost use Rattle.std.specs.Prelude.{◌≡◌, IfOk};
ghost use Rattle.rdl_fields.specs.Touched.{AreTouches};

use crate::class::touches;
use rb_base::NoMemory;
use rdl_layers::Props;
use std::alloc::Global;

/// For each of so many nodes whether software changes a field through it. The only error is want of memory.
pub fn own_touches(alloc: Global, props: &Props<'_>, count: u32) -> Result<Vec<bool>, NoMemory>
    requires { count ≡ props.now.count }
    ensures { IfOk result (λ ts. AreTouches props.now count ts.items) }
{
    let mut list = Vec::new(alloc);
    for node in 0..count {
        list.push(touches(props, node))?;
    }
    Ok(list)
}
