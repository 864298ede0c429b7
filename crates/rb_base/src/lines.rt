//! Places as a reader counts them.
ghost use Rattle.std.specs.Prelude.{◌≡◌, ◌-◌, ◌^◌, ◌<◌, ◌≤◌, length};
ghost use Rattle.rb_base.specs.Lines.{line_of, column_of};

use crate::place::Place;

/// The line and the column of a place in a source. Both count from 1. A line ends with its line
/// feed, and a column counts bytes.
#[tactic(auto, using(crate::proofs::AfterLast::length_after_last))]
pub fn line_column(src: &[u8], place: Place) -> (u32, u32)
    requires inside { place.0 ≤ length src.now }
    requires short { length src.now < 2 ^ 32 - 1 }
    ensures line { result.0 ≡ line_of src.now place.0 }
    ensures column { result.1 ≡ column_of src.now place.0 }
{
    let mut line = 1;
    let mut column = 1;
    for byte in &src[..place.0 as usize] {
        if *byte == b'\n' {
            line += 1;
            column = 1;
        } else {
            column += 1;
        }
    }
    (line, column)
}
