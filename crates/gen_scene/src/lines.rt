//! The lines `intr` and `halt` of registers (SystemRDL 2.0, 9.9).

ghost use Rattle.std.specs.Prelude.{◌≡◌, IfOk};
ghost use Rattle.std.specs.List.{list_any};
ghost use Rattle.rtl_net.specs.Value.{bit_of};
ghost use Rattle.rtl_net.specs.Net.{Grows};
ghost use Rattle.block_plan.specs.Plan.{members_among};
ghost use Rattle.gen_scene.specs.Bases.{IsBase};
ghost use Rattle.gen_scene.specs.Lines as spec;
ghost use Rattle.gen_scene.specs.Lines.{HasLine, raised};
ghost use Rattle.gen_scene.specs.Worth.{IsWorth};

use crate::base::field_at;
use crate::scene::Scene;
use block_plan::{has_line, line_mask, members_in};
use gen_events::{Masked, any};
use rb_base::NoMemory;
use rb_model::{Field, Mask, RefItem};
use rtl_net::{Id, Netlist};
use std::alloc::Global;

/// Whether the bits count where a mask is 0.
fn is_inverted(mask: Mask) -> bool
    ensures { result ≡ spec.is_inverted mask }
{
    match mask {
        Mask::Off => false,
        Mask::Enable(_) => false,
        Mask::Mask(_) => true,
    }
}

impl<'a> Scene<'a> {
    ghost use Rattle.std.specs.Prelude.{◌≡◌};
    ghost use Rattle.block_plan.specs.Plan.{members_of};
    ghost use Rattle.gen_scene.specs.Lines.{line_bits};

    /// The interrupts that are listed for a register.
    fn members(&self, reg: u32) -> &[u32]
        ensures { result.now ≡ members_of self.now.base.now.plan.now reg }
    {
        members_in(self.base.plan, reg)
    }

    /// The bits of an interrupt that count for its register's line, if it counts for it.
    fn line_bits(&self, place: u32, field: &Field, halt: bool) -> Option<Masked>
        ensures { result ≡ line_bits self.now halt place field.now }
    {
        if !has_line(halt, field) {
            return None;
        }
        let mask = line_mask(halt, field);
        match self.item(RefItem::Field(place)) {
            Some(value) => Some(Masked {
                value,
                mask: self.mask(mask),
                inverted: is_inverted(mask),
            }),
            None => None,
        }
    }
}

/// The line `intr` of the register of a number, or its line `halt`, of one bit.
pub(crate) fn line(
    alloc: Global,
    net: &mut Netlist,
    scene: &Scene,
    reg: u32,
    halt: bool,
) -> Result<Id, NoMemory>
    requires base { IsBase net.old scene.now.base.now }
    requires line { HasLine net.old scene.now halt reg }
    ensures older { Grows net.old net.new }
    ensures name { net.new.name ≡ net.old.name }
    ensures worth { IfOk result (λ id. IsWorth scene.now.base.now.block.now scene.now.base.now.inlet net.new id 1
        (λ n v. bit_of (list_any (raised scene.now.base.now.block.now v halt) (members_among scene.now.base.now.block.now.fields reg)))) }
{
    let block = scene.base.block;
    let mut bits = Vec::new(alloc);
    for place in scene.members(reg) {
        let field = field_at(block, *place as usize);
        let Some(one) = scene.line_bits(*place, field, halt) else {
            continue;
        };
        bits.push(one)?;
    }
    let id = any(net, &bits)?;
    Ok(id)
}
