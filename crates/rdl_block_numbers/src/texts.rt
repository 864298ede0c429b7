//! The texts of paths, node by node.

ghost use Rattle.std.specs.Prelude.{◌≡◌, ◌≤◌, ◌-◌, drop, length, take};
ghost use Rattle.rdl_block_numbers.specs.Ends.{start_at};

use rb_base::NoMemory;
use std::alloc::Global;
use std::marker::Model;

/// The path texts of nodes, one behind the other in one vector. Contracts see the list of them.
#[derive(Drop)]
pub struct PathTexts {
    /// For each text the place behind its last byte.
    ends: Vec<u32>,
    /// The bytes of all texts, and some that belong to none where memory was refused.
    bytes: Vec<u8>,
}

impl Model for PathTexts {
    ghost use Rattle.std.specs.Prelude.{List, length, ℕ};
    ghost use Rattle.rdl_block_numbers.specs.Ends.{Rises, cut};

    ghost Value = { List (List ℕ) };

    ghost view = { λ t. cut 0 t.ends.items t.bytes.items };

    ghost invariant = { λ t. Rises 0 t.ends.items (length t.bytes.items) };
}

/// Where the text at a place starts.
fn start_of(ends: &[u32], at: usize) -> usize
    requires { at ≤ length ends.now }
    ensures { result ≡ start_at 0 ends.now at }
{
    if at == 0 { 0 } else { ends[at - 1] as usize }
}

/// The bytes from a place to another.
fn part(bytes: &[u8], start: usize, end: usize) -> &[u8]
    requires rise { start ≤ end }
    requires within { end ≤ length bytes.now }
    ensures { result.now ≡ take (end - start) (drop start bytes.now) }
{
    &bytes[start..end]
}

impl PathTexts {
    ghost use Rattle.std.specs.Prelude.{◌≡◌, ◌<◌, ◌++◌, ◌∷◌, [], OnErr, OnOk, Some, length, slice_get};
    ghost use Rattle.std.specs.Option.{option_copied};

    /// No texts.
    pub fn new(alloc: Global) -> PathTexts
        ensures { result ≡ [] }
    {
        PathTexts {
            ends: Vec::new(alloc),
            bytes: Vec::new(alloc),
        }
    }

    /// The text of a node whose number is below their count.
    pub fn text(&self, at: usize) -> &[u8]
        requires { at < length self.now }
        ensures { slice_get self.now at ≡ Some result.now }
    {
        let start = start_of(&self.ends, at);
        part(&self.bytes, start, self.ends[at] as usize)
    }

    /// The text of a node, if there is one of its number.
    pub fn get(&self, at: usize) -> Option<&[u8]>
        ensures { option_copied result ≡ slice_get self.now at }
    {
        if at >= self.ends.len() {
            return None;
        }
        Some(self.text(at))
    }

    /// Adds the text of the next node. The only error is want of memory: where all texts pass 4 GiB, that is refused like it.
    pub fn add(&mut self, text: &[u8]) -> Result<(), NoMemory>
        ensures ok { OnOk result (self.new ≡ self.old ++ text.now ∷ []) }
        ensures err { OnErr result (self.new ≡ self.old) }
    {
        let start = start_of(&self.ends, self.ends.len());
        self.bytes.truncate(start);
        self.bytes.extend_from_slice(text)?;
        let Ok(end) = u32::try_from(self.bytes.len()) else {
            return Err(NoMemory);
        };
        self.ends.push(end)?;
        Ok(())
    }
}
