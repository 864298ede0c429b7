//! Which words are those of an array's elements.

ghost use Rattle.std.specs.Prelude.{◌≡◌, ◌+◌, ◌-◌, ◌*◌, ◌==◌, ◌++◌, ◌∷◌, ◌<◌, ◌≤◌, [], IfOk, OnOk, SomeIff, get_or, map, min, slice_set, vec_len};
ghost use Rattle.rb_model.specs.Sound.{IsSound};
ghost use Rattle.word_groups.specs.Arrays as arrays;
ghost use Rattle.word_groups.specs.Places.{ArePlacesOf};

use crate::entries::{Entry, copy_of_entry, singles};
use crate::numbers::Numbers;
use crate::parts::are_like;
use crate::paths::push_names;
use crate::places::Places;
use rb_base::{NoMemory, Text};
use rb_model::Block;
use std::alloc::Global;
use std::marker::Model;

/// Words of one number, of registers whose paths differ in indices alone.
#[derive(Drop)]
pub struct Group {
    pub items: Vec<Entry>,
}

impl Model for Group {
    ghost use Rattle.std.specs.Prelude.{List};
    ghost use Rattle.word_groups.specs.declared.entries.Entry.{Entry};

    ghost Value = { List Entry };

    ghost view = { λ all. all.items.items };
}

fn key(alloc: Global, entry: &Entry) -> Result<Text, NoMemory>
    ensures { IfOk result (λ r. r ≡ arrays.key entry.now) }
{
    let mut bytes = Vec::new(alloc);
    bytes.push(entry.number)?;
    push_names(alloc, &mut bytes, &entry.path.bytes)?;
    Ok(Text { bytes })
}

fn keys(alloc: Global, entries: &[Entry]) -> Result<Vec<Text>, NoMemory>
    ensures { IfOk result (λ r. r.items ≡ map arrays.key entries.now) }
{
    let mut keys = Vec::new(alloc);
    for entry in entries {
        keys.push(key(alloc, entry)?)?;
    }
    Ok(keys)
}

fn push_group(alloc: Global, groups: &mut Vec<Group>, entry: Entry) -> Result<(), NoMemory>
    ensures { OnOk result (groups.new.items ≡ groups.old.items ++ (entry ∷ []) ∷ []) }
{
    let mut items = Vec::new(alloc);
    items.push(entry)?;
    groups.push(Group { items })?;
    Ok(())
}

fn join_group(groups: &mut Vec<Group>, place: usize, entry: Entry) -> Result<(), NoMemory>
    requires { place < vec_len groups.old }
    ensures { OnOk result (groups.new.items ≡ slice_set groups.old.items place (get_or groups.old.items place [] ++ entry ∷ [])) }
{
    let group = &mut groups[place];
    group.items.push(entry)?;
    Ok(())
}

// Puts an entry behind those of its key.
fn place<'k>(
    alloc: Global,
    places: &mut Places<'k>,
    groups: &mut Vec<Group>,
    key: &'k [u8],
    entry: Entry,
) -> Result<(), NoMemory>
    requires places { ArePlacesOf groups.old.items places.old }
    requires key { key.now ≡ arrays.key entry }
    ensures groups { OnOk result (groups.new.items ≡ arrays.placed groups.old.items entry) }
    ensures places { OnOk result (ArePlacesOf groups.new.items places.new) }
{
    match places.find(key) {
        Some(place) => {
            join_group(groups, place, entry)?;
            Ok(())
        }
        None => {
            places.put(key, groups.len())?;
            push_group(alloc, groups, entry)?;
            Ok(())
        }
    }
}

fn groups(alloc: Global, entries: &[Entry]) -> Result<Vec<Group>, NoMemory>
    ensures { IfOk result (λ r. r.items ≡ arrays.groups entries.now) }
{
    let keys = keys(alloc, entries)?;
    let mut places = Places::new(alloc);
    let mut groups = Vec::new(alloc);
    for (index, entry) in entries.iter().enumerate() {
        let entry = copy_of_entry(alloc, entry)?;
        place(alloc, &mut places, &mut groups, &keys[index].bytes, entry)?;
    }
    Ok(groups)
}

fn index_at(entry: &Entry, place: usize) -> u32
    ensures { result ≡ get_or entry.now.indices place 0 }
{
    entry.indices.items.get(place).copied().unwrap_or(0)
}

// One more, as far as that fits.
fn one_more(index: u32) -> u32
    ensures { result ≡ min 4294967295 (index + 1) }
{
    if index < u32::MAX { index + 1 } else { index }
}

fn length_at(entries: &[Entry], place: usize) -> u32
    ensures { result ≡ arrays.length_at entries.now place }
{
    let mut length = 0;
    for entry in entries {
        let needed = one_more(index_at(entry, place));
        if needed > length {
            length = needed;
        }
    }
    length
}

fn is_step(entry: &Entry, place: usize) -> bool
    ensures { result ≡ arrays.is_step place entry.now.indices }
{
    index_at(entry, place) == 1
        && entry
            .indices
            .items
            .iter()
            .filter(|index| **index > 0)
            .count()
            == 1
}

fn stride_at(address: u32, entries: &[Entry], place: usize) -> u32
    ensures { result ≡ arrays.stride_at address entries.now place }
{
    let mut stride = 0;
    for entry in entries {
        if is_step(entry, place) {
            stride = entry.address.saturating_sub(address);
        }
    }
    stride
}

fn lengths_of(alloc: Global, first: &Entry, entries: &[Entry]) -> Result<Numbers, NoMemory>
    ensures { IfOk result (λ r. r ≡ arrays.lengths_of first.now entries.now) }
{
    let mut items = Vec::new(alloc);
    for place in 0..first.indices.items.len() {
        items.push(length_at(entries, place))?;
    }
    Ok(Numbers { items })
}

fn strides_of(alloc: Global, first: &Entry, entries: &[Entry]) -> Result<Numbers, NoMemory>
    ensures { IfOk result (λ r. r ≡ arrays.strides_of first.now entries.now) }
{
    let mut items = Vec::new(alloc);
    for place in 0..first.indices.items.len() {
        items.push(stride_at(first.address, entries, place))?;
    }
    Ok(Numbers { items })
}

// What is left of a distance in bytes behind so many strides, if it is as long.
fn less(left: u32, stride: u32, index: u32) -> Option<u32>
    ensures { SomeIff result (stride * index ≤ left) (left - stride * index) }
{
    left.checked_sub(stride.checked_mul(index)?)
}

// Whether a distance in bytes is what strides times indices make.
fn is_distance(distance: u32, strides: &[u32], indices: &[u32]) -> bool
    ensures { result ≡ (distance == arrays.distance strides.now indices.now) }
{
    let mut left = distance;
    let mut rest = strides;
    let mut others = indices;
    while let [stride, more @ ..] = rest {
        let [index, behind @ ..] = others else {
            return left == 0;
        };
        let Some(shorter) = less(left, *stride, *index) else {
            return false;
        };
        left = shorter;
        rest = more;
        others = behind;
    }
    left == 0
}

fn is_spaced(first: &Entry, strides: &[u32], entry: &Entry) -> bool
    ensures { result ≡ (entry.now.address == first.now.address + arrays.distance strides.now entry.now.indices) }
{
    match entry.address.checked_sub(first.address) {
        Some(distance) => is_distance(distance, strides, &entry.indices.items),
        None => false,
    }
}

fn is_element(first: &Entry, strides: &[u32], entry: &Entry) -> bool
    ensures { result ≡ arrays.is_element first.now strides.now entry.now }
{
    entry.indices.items.len() == first.indices.items.len()
        && is_spaced(first, strides, entry)
        && entry.bytes == first.bytes
        && are_like(&entry.parts.items, &first.parts.items)
}

fn is_array(first: &Entry, strides: &Numbers, entries: &[Entry]) -> bool
    requires { strides.now ≡ arrays.strides_of first.now entries.now }
    ensures { result ≡ arrays.is_array first.now entries.now }
{
    if first.indices.items.is_empty() {
        return false;
    }
    for entry in entries {
        if !is_element(first, &strides.items, entry) {
            return false;
        }
    }
    true
}

fn push_copies(alloc: Global, into: &mut Vec<Entry>, entries: &[Entry]) -> Result<(), NoMemory>
    ensures { OnOk result (into.new.items ≡ into.old.items ++ entries.now) }
{
    for entry in entries {
        into.push(copy_of_entry(alloc, entry)?)?;
    }
    Ok(())
}

fn as_array(
    alloc: Global,
    first: &Entry,
    strides: Numbers,
    entries: &[Entry],
) -> Result<Entry, NoMemory>
    requires { strides ≡ arrays.strides_of first.now entries.now }
    ensures { IfOk result (λ r. r ≡ arrays.as_array first.now entries.now) }
{
    let mut entry = copy_of_entry(alloc, first)?;
    entry.lengths = lengths_of(alloc, first, entries)?;
    entry.strides = strides;
    Ok(entry)
}

/// One entry for all words of a group, where they are the like words of all elements of an array. The only error is want of memory.
pub fn array_of(alloc: Global, group: &[Entry]) -> Result<Option<Entry>, NoMemory>
    ensures { IfOk result (λ r. r ≡ arrays.array_of group.now) }
{
    let Some(first) = group.first() else {
        return Ok(None);
    };
    let strides = strides_of(alloc, first, group)?;
    if !is_array(first, &strides, group) {
        return Ok(None);
    }
    Ok(Some(as_array(alloc, first, strides, group)?))
}

fn push_entries(alloc: Global, into: &mut Vec<Entry>, group: &[Entry]) -> Result<(), NoMemory>
    ensures { OnOk result (into.new.items ≡ into.old.items ++ arrays.entries_of group.now) }
{
    match array_of(alloc, group)? {
        Some(entry) => {
            into.push(entry)?;
            Ok(())
        }
        None => push_copies(alloc, into, group),
    }
}

/// The words of a block in groups: those of one number, of registers whose paths differ in indices alone. The only error is want of memory.
pub fn groups_of(alloc: Global, block: &Block) -> Result<Vec<Group>, NoMemory>
    requires { IsSound block.now }
    ensures { IfOk result (λ r. r.items ≡ arrays.groups_of block.now) }
{
    let words = singles(alloc, block)?;
    groups(alloc, &words)
}

/// The entries of a block: of an array one, and else one for each word. The only error is want of memory.
pub fn entries_of(alloc: Global, block: &Block) -> Result<Vec<Entry>, NoMemory>
    requires { IsSound block.now }
    ensures { IfOk result (λ r. r.items ≡ arrays.entries block.now) }
{
    let mut entries = Vec::new(alloc);
    let groups = groups_of(alloc, block)?;
    for group in &groups {
        push_entries(alloc, &mut entries, &group.items)?;
    }
    Ok(entries)
}
