//! What is looked at of each field at an edge, so that the field itself seldom is.
ghost use Rattle.std.specs.Prelude.{◌≡◌, IfOk, map};
ghost use Rattle.rb_machine.specs.Quiet as spec;
ghost use Rattle.rb_machine.specs.Quiet.{AreNextBusy};

use crate::plain::{is_fed, is_plain};
use rb_base::NoMemory;
use rb_effects::{is_interrupt, is_on, is_storage, keeps_last, loads};
use rb_model::Field;
use std::alloc::Global;

/// What is looked at of a field at an edge: its width in bits, and whether it keeps a value.
#[derive(Clone, Copy)]
pub(crate) struct Brief {
    pub width: u8,
    pub stores: bool,
}

/// Whether hardware leaves the kept value of a field as it is.
fn is_spared(field: &Field) -> bool
    ensures { result ≡ spec.is_spared field.now }
{
    is_storage(field.class)
        && field.count.is_none()
        && !is_interrupt(field.latch)
        && !field.pulse
        && !loads(field)
        && !is_fed(field.set)
        && !is_fed(field.clear)
        && !is_on(field.keep)
}

/// Whether what a field keeps changes through software alone, as it does where the field keeps nothing.
pub(crate) fn is_quiet(field: &Field) -> bool
    ensures { result ≡ spec.is_quiet field.now }
{
    is_spared(field) || (!is_storage(field.class) && !keeps_last(field.latch))
}

/// Whether an edge at which no field is under reset needs no look at all that the field has.
fn is_light(field: &Field) -> bool
    ensures { result ≡ spec.is_light field.now }
{
    is_quiet(field) || is_plain(field)
}

/// What is looked at of each field.
pub(crate) fn briefs(alloc: Global, fields: &[Field]) -> Result<Vec<Brief>, NoMemory>
    ensures { IfOk result (λ all. all.items ≡ map spec.brief_of fields.now) }
{
    let mut all = Vec::new(alloc);
    for field in fields {
        all.push(Brief {
            width: field.width,
            stores: is_storage(field.class),
        })?;
    }
    Ok(all)
}

/// For each place in the list of fields the first from there on whose field isn't light, or the end of the list.
pub(crate) fn busy_places(alloc: Global, fields: &[Field]) -> Result<Vec<usize>, NoMemory>
    ensures { IfOk result (λ next. AreNextBusy fields.now next.items) }
{
    let mut next = vec![in alloc; 0; fields.len()]?;
    let mut busy = fields.len();
    for at in (0..fields.len()).rev() {
        if !is_light(&fields[at]) {
            busy = at;
        }
        next[at] = busy;
    }
    Ok(next)
}
