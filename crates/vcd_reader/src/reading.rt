//! A text, from its front to its end.

ghost use Rattle.std.specs.Prelude.{◌≡◌, ◌≢◌, ◌-◌, ◌^◌, ◌<◌, ◌≤◌, length, IfOk, IfErr};
ghost use Rattle.vcd_syntax.specs.Reading.{IsTable, Fails};
ghost use Rattle.vcd_reader.specs.Reading.{place_number};

use crate::said::Said;
use crate::waves::Waves;
use crate::words::word_behind;
use rb_base::Place;
use std::alloc::Global;
use vcd_syntax::VcdError;

/// The table of a dump of fewer than 2^32 - 1 bytes (IEEE 1364-2005, clause 18), or its first problem.
///
/// The variables are pins in the order of their declarations, and there is a row for each time, with the last value that each
/// variable is given before the next time. Of several problems the one at the least place is answered, and of those at one
/// place the first in the order of `VcdError`. Want of memory may be answered in place of the table or of a problem. Names,
/// and codes of more than three bytes, are looked up in order, whoever picks them.
pub fn read(alloc: Global, bytes: &[u8]) -> Result<Waves, VcdError>
    requires { length bytes.now < 2 ^ 32 - 1 }
    ensures table { IfOk result (λ w. IsTable bytes.now w.pins w.rows) }
    ensures problem { IfErr result (λ e. e ≢ VcdError.NoMemory → Fails bytes.now e) }

    // An error's place is within the bytes.
    ensures inside { IfErr result (λ e. place_number e ≤ length bytes.now) }
{
    let result = judged(alloc, bytes);
    result
}

// The table of the bytes, or what is wrong with them.
#[inline(never)]
fn judged(alloc: Global, bytes: &[u8]) -> Result<Waves, VcdError>
    requires { length bytes.now < 2 ^ 32 - 1 }
    ensures table { IfOk result (λ w. IsTable bytes.now w.pins w.rows) }
    ensures problem { IfErr result (λ e. e ≢ VcdError.NoMemory → Fails bytes.now e) }
{
    let mut said = Said::new(alloc);
    let mut at = 0;
    'words: while let Some(word) = word_behind(bytes, at) {
        said.step(word)?;
        at = word.place.0 as usize + word.text.len();
    }
    said.end(alloc, Place(bytes.len() as u32))
}
