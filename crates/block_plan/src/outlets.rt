//! The outputs of a block behind those of the bus.
ghost use Rattle.std.specs.Prelude.{◌≡◌, ◌++◌, ◌∷◌, [], IfOk, OnOk, map};
ghost use Rattle.std.specs.List.{enumerate_from, flat_map};
ghost use Rattle.rb_model.specs.Ports as ports;
ghost use Rattle.rb_model.specs.Ports.{field_outlets, reg_outlets};
ghost use Rattle.block_plan.specs.Outlets.{outlet_seen, shown_outlets};

use crate::members::number_of;
use rb_base::{NoMemory, Text};
use rb_model::{Block, Field, RefItem, Reg, Shown};
use std::alloc::Global;

/// An output port and the item that it shows. Its width is in bits.
#[derive(Drop)]
pub struct Outlet {
    pub name: Text,
    pub width: u8,
    pub item: RefItem,
}

/// The word before the path in the name of an output that a field has beside its value.
fn shown_word(shown: Shown) -> &'static [u8]
    ensures { result.now ≡ ports.shown_word shown }
{
    match shown {
        Shown::Anded => b"anded$",
        Shown::Ored => b"ored$",
        Shown::Xored => b"xored$",
        Shown::IncrThreshold => b"incrthreshold$",
        Shown::DecrThreshold => b"decrthreshold$",
        Shown::Overflow => b"overflow$",
        Shown::Underflow => b"underflow$",
        Shown::SwMod => b"swmod$",
        Shown::SwAcc => b"swacc$",
    }
}

/// The item that an output of the field of a number shows.
fn shown_item(number: u32, shown: Shown) -> RefItem
    ensures { result ≡ ports.shown_item number shown }
{
    match shown {
        Shown::Anded => RefItem::Anded(number),
        Shown::Ored => RefItem::Ored(number),
        Shown::Xored => RefItem::Xored(number),
        Shown::IncrThreshold => RefItem::IncrThreshold(number),
        Shown::DecrThreshold => RefItem::DecrThreshold(number),
        Shown::Overflow => RefItem::Overflow(number),
        Shown::Underflow => RefItem::Underflow(number),
        Shown::SwMod => RefItem::SwMod(number),
        Shown::SwAcc => RefItem::SwAcc(number),
    }
}

/// Adds an output whose name is the word and the path.
fn push_outlet(
    alloc: Global,
    out: &mut Vec<Outlet>,
    word: &[u8],
    path: &[u8],
    width: u8,
    item: RefItem,
) -> Result<(), NoMemory>
    ensures { OnOk result (map outlet_seen out.new.items ≡ map outlet_seen out.old.items ++ ports.outlet (word.now ++ path.now) width item ∷ []) }
{
    let mut bytes = Vec::new(alloc);
    bytes.extend_from_slice(word)?;
    bytes.extend_from_slice(path)?;
    out.push(Outlet {
        name: Text { bytes },
        width,
        item,
    })?;
    Ok(())
}

/// Adds the outputs that the field of a number has beside its value.
fn push_shown(
    alloc: Global,
    out: &mut Vec<Outlet>,
    number: u32,
    path: &[u8],
    shown: &[Shown],
) -> Result<(), NoMemory>
    ensures { OnOk result (map outlet_seen out.new.items ≡ map outlet_seen out.old.items ++ shown_outlets number path.now shown.now) }
{
    for item in shown {
        push_outlet(
            alloc,
            out,
            shown_word(*item),
            path,
            1,
            shown_item(number, *item),
        )?;
    }
    Ok(())
}

/// Adds the outputs of the field of a number.
fn push_field(
    alloc: Global,
    out: &mut Vec<Outlet>,
    number: u32,
    field: &Field,
) -> Result<(), NoMemory>
    ensures { OnOk result (map outlet_seen out.new.items ≡ map outlet_seen out.old.items ++ field_outlets (number, field.now)) }
{
    let path = &field.path.bytes;
    if field.hw_reads {
        push_outlet(
            alloc,
            out,
            b"out$",
            path,
            field.width,
            RefItem::Field(number),
        )?;
    }
    push_shown(alloc, out, number, path, &field.shown.items)?;
    Ok(())
}

/// Adds the outputs of the register of a number.
fn push_reg(alloc: Global, out: &mut Vec<Outlet>, number: u32, reg: &Reg) -> Result<(), NoMemory>
    ensures { OnOk result (map outlet_seen out.new.items ≡ map outlet_seen out.old.items ++ reg_outlets (number, reg.now)) }
{
    let path = &reg.path.bytes;
    if reg.intr {
        push_outlet(alloc, out, b"intr$", path, 1, RefItem::Intr(number))?;
    }
    if reg.halt {
        push_outlet(alloc, out, b"halt$", path, 1, RefItem::Halt(number))?;
    }
    Ok(())
}

/// Adds the outputs of fields.
fn push_fields(alloc: Global, out: &mut Vec<Outlet>, fields: &[Field]) -> Result<(), NoMemory>
    ensures { OnOk result (map outlet_seen out.new.items ≡ map outlet_seen out.old.items ++ flat_map field_outlets (enumerate_from 0 fields.now)) }
{
    for (index, field) in fields.iter().enumerate() {
        push_field(alloc, out, number_of(index)?, field)?;
    }
    Ok(())
}

/// Adds the outputs of registers.
fn push_regs(alloc: Global, out: &mut Vec<Outlet>, regs: &[Reg]) -> Result<(), NoMemory>
    ensures { OnOk result (map outlet_seen out.new.items ≡ map outlet_seen out.old.items ++ flat_map reg_outlets (enumerate_from 0 regs.now)) }
{
    for (index, reg) in regs.iter().enumerate() {
        push_reg(alloc, out, number_of(index)?, reg)?;
    }
    Ok(())
}

/// The outputs of a block behind those of the bus, in port order.
pub(crate) fn outlets(alloc: Global, block: &Block) -> Result<Vec<Outlet>, NoMemory>
    ensures { IfOk result (λ all. map outlet_seen all.items ≡ ports.outlets block.now) }
{
    let mut out = Vec::new(alloc);
    push_fields(alloc, &mut out, &block.fields.items)?;
    push_regs(alloc, &mut out, &block.regs.items)?;
    Ok(out)
}
