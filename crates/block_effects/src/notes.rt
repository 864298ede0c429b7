//! What a source says of the parts of a block.

use rb_base::Text;
use std::marker::Model;

/// The `name` and `desc` of a part: the bytes between the quotes, with their backslashes.
#[derive(Drop)]
pub struct Note<'a> {
    pub name: Option<&'a [u8]>,
    pub desc: Option<&'a [u8]>,
}

impl<'a> Model for Note<'a> {
    ghost use Rattle.std.specs.Prelude.{option_copied};
    ghost use Rattle.block_effects.specs.Notes.{Said};

    ghost Value = { Said };

    ghost view = { λ n. record { name = option_copied n.name; desc = option_copied n.desc } };
}

impl Note<'_> {
    ghost use Rattle.std.specs.Prelude.{◌≡◌};
    ghost use Rattle.block_effects.specs.Notes.{is_said};

    /// Whether it says something.
    pub fn says(&self) -> bool
        ensures { result ≡ is_said self.now }
    {
        self.name.is_some() || self.desc.is_some()
    }
}

/// The note of an address map or register file that registers stand in, and its path.
#[derive(Drop)]
pub struct Group<'a> {
    pub path: Text,
    pub note: Note<'a>,
}

impl<'a> Model for Group<'a> {
    ghost use Rattle.block_effects.specs.Notes.{SaidGroup};

    ghost Value = { SaidGroup };

    ghost view = { λ g. record { path = g.path; said = g.note } };
}

/// The notes of a block: of its top, of its registers, views and signals by their numbers, of the groups that have one, and of the
/// entries of its enumerations.
#[derive(Drop)]
pub struct Notes<'a> {
    pub top: Note<'a>,
    pub regs: Vec<Note<'a>>,
    pub views: Vec<Note<'a>>,
    pub signals: Vec<Note<'a>>,
    pub groups: Vec<Group<'a>>,
    pub enums: Vec<Vec<Note<'a>>>,
}

impl<'a> Model for Notes<'a> {
    ghost use Rattle.std.specs.Prelude.{map};
    ghost use Rattle.block_effects.specs.Notes.{AllSaid};

    ghost Value = { AllSaid };

    ghost view = { λ n. record { top = n.top; regs = n.regs.items; views = n.views.items; signals = n.signals.items; groups = n.groups.items; enums = map (λ v. v.items) n.enums.items } };
}
