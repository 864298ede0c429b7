//! An instance as the use of a definition: its parts, the values of the definition's parameters, what fails, and whether it gives nodes.
#![tactic(auto)]

mod arguments;
mod binding;
mod dims;
mod earlier;
mod holder;
mod instance;
mod instances;
mod lengths;
mod parts;
mod standing;
mod typing;
mod unknown;
mod uses;
mod values;

pub use arguments::Arguments;
pub use binding::bind;
pub use earlier::Earlier;
pub use holder::{Holder, Parent};
pub use instance::judge_instance;
pub use instances::{SizedInst, Visited, judge_instances};
pub use lengths::{MOST_BYTES, text_len};
pub use parts::{is_bad_form, judge_parts};
pub use standing::Standing;
pub use unknown::judge_unknown;
pub use uses::{Uses, judge_uses};
pub use values::{Values, judge_values};
