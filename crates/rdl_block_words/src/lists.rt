//! The words of all registers, of those that software reads or writes.

ghost use Rattle.std.specs.Prelude.{◌≡◌, ◌&&◌, ℕ, List, IfOk, IsPermutation, map};
ghost use Rattle.std.specs.BTreeSet.{contains};
ghost use Rattle.std.specs.List.Sorted.{IsNonDecreasing};
ghost use Rattle.std.specs.Ordering.{nat_cmp};
ghost use Rattle.rdl_tree.specs.declared.node.Elab.{Elab as AnyElab};
ghost use Rattle.rdl_addr.specs.Layout.{Placed};
ghost use Rattle.rdl_rules.specs.Numbers.{numbered};
ghost use Rattle.rdl_block_words.specs.Access as spec;
ghost use Rattle.rdl_block_words.specs.Access.{is_taken, words_for};
ghost use Rattle.rdl_block_words.specs.Entries.{AreEntriesOf};

use crate::access::{Access, is_only, opposite};
use crate::entry::PlacedRegister;
use crate::word::add_words;
use rb_base::NoMemory;
use rb_model::Word;
use std::alloc::Global;
use std::collections::BTreeSet;

/// The words that software reads, and those that it writes, each by address.
#[derive(Drop)]
pub struct Words {
    pub reads: Vec<Word>,
    pub writes: Vec<Word>,
}

/// The addresses of the registers with which software does only this.
fn taken(
    alloc: Global,
    entries: &[PlacedRegister<'_>],
    access: Access,
) -> Result<BTreeSet<u32>, NoMemory>
    ensures { IfOk result (λ s. (a : ℕ) → contains nat_cmp s a ≡ is_taken access entries.now a) }
{
    let mut addresses = BTreeSet::new(alloc);
    for entry in entries {
        if is_only(entry, access) {
            addresses.insert(entry.shape.address)?;
        }
    }
    Ok(addresses)
}

/// Whether software doesn't do this with a register, as it does with another one at its address.
fn is_masked(entry: &PlacedRegister<'_>, access: Access, taken: &BTreeSet<u32>) -> bool
    ensures { result ≡ (spec.is_only (spec.opposite access) entry.now && contains nat_cmp taken.now entry.now.shape.address) }
{
    is_only(entry, opposite(access)) && taken.contains(&entry.shape.address)
}

/// The words of all registers with which software does this, register by register.
fn unordered(
    alloc: Global,
    entries: &[PlacedRegister<'_>],
    access: Access,
) -> Result<Vec<Word>, NoMemory>
    requires { (e : AnyElab) × (ps : List Placed) × AreEntriesOf e entries.now (numbered (λ p. p.node) ps) }
    ensures { IfOk result (λ ws. (e : AnyElab) (ps : List Placed) → AreEntriesOf e entries.now (numbered (λ p. p.node) ps) → ws.items ≡ words_for access ps) }
{
    let taken = taken(alloc, entries, access)?;
    let mut words = Vec::new(alloc);
    for entry in entries {
        if !is_masked(entry, access, &taken) {
            add_words(alloc, &entry.shape, &entry.views, &mut words)?;
        }
    }
    Ok(words)
}

/// The words of all registers with which software does this, by address. The only error is want of memory.
pub(crate) fn by_address(
    alloc: Global,
    entries: &[PlacedRegister<'_>],
    access: Access,
) -> Result<Vec<Word>, NoMemory>
    requires { (e : AnyElab) × (ps : List Placed) × AreEntriesOf e entries.now (numbered (λ p. p.node) ps) }
    ensures same { IfOk result (λ ws. (e : AnyElab) (ps : List Placed) → AreEntriesOf e entries.now (numbered (λ p. p.node) ps) → IsPermutation (words_for access ps) ws.items) }
    ensures rising { IfOk result (λ ws. IsNonDecreasing (map (λ w. w.address) ws.items)) }
{
    let mut words = unordered(alloc, entries, access)?;
    words.sort_by_key(|word| word.address)?;
    Ok(words)
}
