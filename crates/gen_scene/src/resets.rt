//! How fields are reset.

ghost use Rattle.std.specs.Prelude.{◌≡◌, ◌<◌, length};
ghost use Rattle.rtl_net.specs.Ids.{at};
ghost use Rattle.gen_scene.specs.Bases as spec;
ghost use Rattle.gen_scene.specs.Bases.{signal_place};

use block_plan::Plan;
use rb_model::ResetBy;
use rtl_net::{Id, NetReset};

/// The place of the pin of a reset.
fn reset_place(plan: &Plan, by: ResetBy) -> usize
    ensures { result ≡ signal_place plan.now by.signal }
{
    match by.signal {
        None => plan.bus.resetn,
        Some(signal) => match plan.signals.get(signal as usize) {
            Some(place) => *place,
            None => plan.bus.resetn,
        },
    }
}

/// The node of the pin of a reset.
pub(crate) fn reset_id(plan: &Plan, pins: &[Id], by: ResetBy) -> Id
    requires { signal_place plan.now by.signal < length pins.now }
    ensures { result ≡ at pins.now (signal_place plan.now by.signal) }
{
    pins[reset_place(plan, by)]
}

/// How a register is reset by a pin: asynchronously, to a number if there is one.
pub(crate) fn reset_for(pin: Id, by: ResetBy, value: Option<u128>) -> NetReset
    ensures { result ≡ spec.reset_for pin by value }
{
    match value {
        Some(value) if !by.sync => NetReset::Async {
            pin,
            low: by.low,
            value,
        },
        _ => NetReset::None,
    }
}
