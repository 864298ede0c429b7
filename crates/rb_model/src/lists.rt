//! Lists of a block's parts, which contracts see as lists.

use crate::block::{Field, Reg, Signal, Slot, View, Word};
use crate::kinds::{RefItem, Shown};
use std::marker::Model;

/// The signals of a block, in node order.
#[derive(Drop)]
pub struct Signals {
    pub items: Vec<Signal>,
}

impl Model for Signals {
    ghost use Rattle.std.specs.Prelude.{List};
    ghost use Rattle.rb_model.specs.declared.block.Signal.{Signal};

    ghost Value = { List Signal };

    ghost view = { λ all. all.items.items };
}

/// The fields of a block, in node order.
#[derive(Drop)]
pub struct Fields {
    pub items: Vec<Field>,
}

impl Model for Fields {
    ghost use Rattle.std.specs.Prelude.{List};
    ghost use Rattle.rb_model.specs.declared.block.Field.{Field};

    ghost Value = { List Field };

    ghost view = { λ all. all.items.items };
}

/// The views of a block, in node order.
#[derive(Drop)]
pub struct Views {
    pub items: Vec<View>,
}

impl Model for Views {
    ghost use Rattle.std.specs.Prelude.{List};
    ghost use Rattle.rb_model.specs.declared.block.View.{View};

    ghost Value = { List View };

    ghost view = { λ all. all.items.items };
}

/// The slots of a word.
#[derive(Drop)]
pub struct Slots {
    pub items: Vec<Slot>,
}

impl Model for Slots {
    ghost use Rattle.std.specs.Prelude.{List};
    ghost use Rattle.rb_model.specs.declared.block.Slot.{Slot};

    ghost Value = { List Slot };

    ghost view = { λ all. all.items.items };
}

/// Words, by address.
#[derive(Drop)]
pub struct Words {
    pub items: Vec<Word>,
}

impl Model for Words {
    ghost use Rattle.std.specs.Prelude.{List};
    ghost use Rattle.rb_model.specs.declared.block.Word.{Word};

    ghost Value = { List Word };

    ghost view = { λ all. all.items.items };
}

/// The registers of a block, in node order.
#[derive(Drop)]
pub struct Regs {
    pub items: Vec<Reg>,
}

impl Model for Regs {
    ghost use Rattle.std.specs.Prelude.{List};
    ghost use Rattle.rb_model.specs.declared.block.Reg.{Reg};

    ghost Value = { List Reg };

    ghost view = { λ all. all.items.items };
}

/// The outputs that a field has beside its value, in port order.
#[derive(Drop)]
pub struct Shows {
    pub items: Vec<Shown>,
}

impl Model for Shows {
    ghost use Rattle.std.specs.Prelude.{List};
    ghost use Rattle.rb_model.specs.declared.kinds.Shown.{Shown};

    ghost Value = { List Shown };

    ghost view = { λ all. all.items.items };
}

/// Items, each behind those that it refers to.
#[derive(Drop)]
pub struct Order {
    pub items: Vec<RefItem>,
}

impl Model for Order {
    ghost use Rattle.std.specs.Prelude.{List};
    ghost use Rattle.rb_model.specs.declared.kinds.RefItem.{RefItem};

    ghost Value = { List RefItem };

    ghost view = { λ all. all.items.items };
}
