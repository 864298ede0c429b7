//! Which groups are listed.

ghost use Rattle.std.specs.Prelude.{◌≡◌, IfOk, OnOk};
ghost use Rattle.rdl_notes.specs.Groups.{behind};
ghost use Rattle.rdl_notes.specs.Seen.{IsSeenOf};

use block_effects::{Group, Note};
use rb_base::{NoMemory, Text};
use std::alloc::Global;
use std::collections::BTreeSet;
use word_groups::push_names;

/// The groups that are listed, by their paths without indices and what is said of them. A look-up compares a group with some tens of
/// others at most.
#[derive(Drop)]
pub struct Seen<'a> {
    groups: BTreeSet<(Vec<u8>, Option<&'a [u8]>, Option<&'a [u8]>)>,
}

impl<'a> Seen<'a> {
    ghost use Rattle.std.specs.Prelude.{◌≡◌, ◌||◌, [], IfOk, cond, not};
    ghost use Rattle.block_effects.specs.Notes.{SaidGroup};
    ghost use Rattle.rdl_notes.specs.Groups.{is_like};
    ghost use Rattle.rdl_notes.specs.Seen.{IsSeenOf, seen_in};

    /// None yet.
    pub(crate) fn new(alloc: Global) -> Self
        ensures { IsSeenOf [] result }
    {
        Seen {
            groups: BTreeSet::new(alloc),
        }
    }

    /// Adds a group, where there is none like it, and answers whether there was none. The only error is want of memory.
    fn add(&mut self, alloc: Global, path: &[u8], note: &Note<'a>) -> Result<bool, NoMemory>
        ensures new { IfOk result (λ new. new ≡ not (seen_in self.old (record { path = path.now; said = note.now }))) }
        ensures added { IfOk result (λ new. (g : SaidGroup) → seen_in self.new g ≡ cond new (is_like g (record { path = path.now; said = note.now }) || seen_in self.old g) (seen_in self.old g)) }
    {
        let mut names = Vec::new(alloc);
        push_names(alloc, &mut names, path)?;
        let new = self.groups.insert((names, note.name, note.desc))?;
        Ok(new)
    }
}

/// A text of its own.
fn text_of(alloc: Global, bytes: &[u8]) -> Result<Text, NoMemory>
    ensures { IfOk result (λ t. t ≡ bytes.now) }
{
    let bytes = Vec::from_slice(alloc, bytes)?;
    Ok(Text { bytes })
}

/// Puts a group behind those listed, where none of them is like it. The only error is want of memory.
pub(crate) fn add_group<'a>(
    alloc: Global,
    seen: &mut Seen<'a>,
    list: &mut Vec<Group<'a>>,
    path: &[u8],
    note: Note<'a>,
) -> Result<(), NoMemory>
    requires { IsSeenOf list.old.items seen.old }
    ensures listed { OnOk result (list.new.items ≡ behind list.old.items (record { path = path.now; said = note.entry })) }
    ensures seen { OnOk result (IsSeenOf list.new.items seen.new) }
{
    let new = seen.add(alloc, path, &note)?;
    if new {
        let path = text_of(alloc, path)?;
        list.push(Group { path, note })?;
    }
    Ok(())
}
