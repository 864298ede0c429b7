//! What hardware makes of all fields.

ghost use Rattle.std.specs.Prelude.{◌≡◌, ◌<◌, ◌==◌, ◌&&◌, ◌^◌, ℕ, Bool, OnOk, Some, length, slice_get, if◌then◌else◌};
ghost use Rattle.rtl_net.specs.Net.{Grows};
ghost use Rattle.gen_access.specs.Tables.{AreNodes, Changes};
ghost use Rattle.gen_clock.specs.Moves as spec;

use crate::steps::moved;
use gen_scene::Scene;
use rb_base::NoMemory;
use rb_effects::is_storage;
use rb_model::Field;
use rtl_net::{Id, Netlist};

/// Whether a field keeps a value on which hardware has the last word, or on which software has it.
fn moves_in(last: bool, field: &Field) -> bool
    ensures { result ≡ spec.moves_in last field.now }
{
    is_storage(field.class) && field.hw_first == last
}

/// Puts what hardware makes of one field behind what the table has of it.
fn put_field(
    net: &mut Netlist,
    scene: &Scene,
    last: bool,
    number: usize,
    field: &Field,
    table: &mut [Id],
) -> Result<(), NoMemory>
    requires fields { spec.HasFields net.old scene.now }
    requires few { number < 2 ^ 60 }
    requires field { slice_get scene.now.base.now.block.now.fields number ≡ Some field.now }
    requires table { AreNodes scene.now.base.now.block.now net.old table.old (λ f. f.width) }
    ensures older { Grows net.old net.new }
    ensures name { net.new.name ≡ net.old.name }
    ensures table { OnOk result (AreNodes scene.now.base.now.block.now net.new table.new (λ f. f.width)) }
    ensures changes { OnOk result (Changes scene.now.base.now.block.now scene.now.base.now.inlet net.old net.new table.old table.new (λ f. f.width)
        (λ n v k f x. if k == number then spec.moved_in last n v k f x else x)) }
{
    if !moves_in(last, field) {
        return Ok(());
    }
    let id = moved(net, scene, number, field, table[number])?;
    table[number] = id;
    Ok(())
}

/// Puts what hardware makes of fields behind what the table has of each: of those on which hardware has the `last` word, or of
/// those on which software has it. The only error is want of memory, after which the netlist has some of the nodes.
pub fn hardware_nodes(
    net: &mut Netlist,
    scene: &Scene,
    last: bool,
    table: &mut [Id],
) -> Result<(), NoMemory>
    requires fields { spec.HasFields net.old scene.now }
    requires table { AreNodes scene.now.base.now.block.now net.old table.old (λ f. f.width) }
    ensures older { Grows net.old net.new }
    ensures name { net.new.name ≡ net.old.name }
    ensures table { OnOk result (AreNodes scene.now.base.now.block.now net.new table.new (λ f. f.width)) }
    ensures changes { OnOk result (Changes scene.now.base.now.block.now scene.now.base.now.inlet net.old net.new table.old table.new (λ f. f.width) (spec.moved_in last)) }
{
    let block = scene.base.block;
    let fields: &[Field] = &block.fields.items;
    for (number, field) in fields.iter().enumerate() {
        put_field(net, scene, last, number, field, table)?;
    }
    Ok(())
}
