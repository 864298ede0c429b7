//! The words of a register.

ghost use Rattle.std.specs.Prelude.{◌≡◌, ◌+◌, ◌*◌, ◌/◌, ◌++◌, ◌<◌, ◌≤◌, ◌^◌, IfOk, OnOk, length};
ghost use Rattle.rdl_tree.specs.declared.node.Elab.{Elab as AnyElab};
ghost use Rattle.rdl_addr.specs.Bits.{bits_of};
ghost use Rattle.rdl_addr.specs.Layout.{Placed};
ghost use Rattle.rdl_rules.specs.Numbers.{Numbered};
ghost use Rattle.rdl_rules.specs.Words as spec;
ghost use Rattle.rdl_block_words.specs.Shapes.{Fits, IsShapeOf};
ghost use Rattle.rdl_fields.specs.Views.{AreViewsOf};

use crate::slot::slots;
use rb_base::NoMemory;
use rb_model::Word;
use rdl_fields::View;
use std::alloc::Global;

/// Where a register stands: its number among the registers, that of its first view among the views, its address in bytes, and its
/// widths in bits.
#[derive(Clone, Copy, Debug)]
pub struct Shape {
    pub number: u32,
    pub first_view: u32,
    pub address: u32,
    pub regwidth: u8,
    pub accesswidth: u8,
}

/// Word `number` of a register with these fields. The only error is want of memory.
fn word(alloc: Global, shape: &Shape, number: u8, views: &[View<'_>]) -> Result<Word, NoMemory>
    requires some { 0 < shape.now.accesswidth }
    requires within { number * shape.now.accesswidth + shape.now.accesswidth < 256 }
    requires low { shape.now.address + number * (shape.now.accesswidth / 8) < 2 ^ 32 }
    requires numbers { shape.now.first_view + length views.now < 2 ^ 32 }
    ensures { IfOk result (λ w. (e : AnyElab) (r : Numbered Placed) → IsShapeOf shape.now r → AreViewsOf e views.now (bits_of r.register.node) → w ≡ spec.word_of r number) }
{
    let base = number * shape.accesswidth;
    let slots = slots(alloc, shape.first_view, base, shape.accesswidth, views)?;
    let step = u32::from(shape.accesswidth / 8);
    Ok(Word {
        address: shape.address + u32::from(number) * step,
        width: shape.accesswidth,
        reg: shape.number,
        number,
        slots,
    })
}

/// Adds the words of a register with these fields, the lowest bits first. The only error is want of memory.
pub fn add_words(
    alloc: Global,
    shape: &Shape,
    views: &[View<'_>],
    words: &mut Vec<Word>,
) -> Result<(), NoMemory>
    requires fits { Fits shape.now }
    requires numbers { shape.now.first_view + length views.now < 2 ^ 32 }
    ensures { OnOk result ((e : AnyElab) (r : Numbered Placed) → IsShapeOf shape.now r → AreViewsOf e views.now (bits_of r.register.node) → words.new.items ≡ words.old.items ++ spec.words_of r) }
{
    let count = shape.regwidth / shape.accesswidth;
    for number in 0..count {
        let word = word(alloc, shape, number, views)?;
        words.push(word)?;
    }
    Ok(())
}
