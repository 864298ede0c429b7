//! The macros of enumerations: one for each enumerator, with its value.

ghost use Rattle.std.specs.Prelude.{◌≡◌, ◌<◌, ◌++◌, IfOk, OnOk, Some, flat_map, length, map, slice_get};
ghost use Rattle.c_header.specs.Enumerators as spec;
ghost use Rattle.c_header.specs.Enumerators.{enumerator_base, enumerator_exact, enumerator_macro, enumerator_path};
ghost use Rattle.c_header.specs.Header as header;
ghost use Rattle.c_header.specs.Header.{enumeration_comment, line, lines};
ghost use Rattle.c_header.specs.Names as names;
ghost use Rattle.c_header.specs.Names.{name_among};

use crate::lines::push_number;
use crate::names::{exact, natural, push_spelled};
use crate::repeats::Repeats;
use encodings::Encoding;
use rb_base::{NoMemory, Text};
use rb_model::Block;
use std::alloc::Global;
use word_groups::push_shown;

// The path of the first field that is encoded by it.
fn path_of_user<'b>(block: &'b Block, encoding: &Encoding<'_>) -> &'b [u8]
    ensures { result.now ≡ spec.user_path block.now encoding.now }
{
    match block.fields.items.get(encoding.field as usize) {
        Some(field) => &field.path.bytes,
        None => b"",
    }
}

// The name and the value of an enumerator by its number.
fn enumerator_at<'e>(encoding: &Encoding<'e>, at: usize) -> (&'e [u8], u64)
    requires { at < length encoding.now.entries }
    ensures { slice_get encoding.now.entries at ≡ Some (result.0.now, result.1) }
{
    encoding.entries[at]
}

fn count_of(encoding: &Encoding<'_>) -> usize
    ensures { result ≡ length encoding.now.entries }
{
    encoding.entries.len()
}

fn path_of_enumerator(
    alloc: Global,
    encoding: &Encoding<'_>,
    name: &[u8],
) -> Result<Vec<u8>, NoMemory>
    ensures { IfOk result (λ r. r.items ≡ enumerator_path encoding.now name.now) }
{
    let mut path = Vec::from_slice(alloc, encoding.name)?;
    path.push(b'$')?;
    path.extend_from_slice(name)?;
    Ok(path)
}

fn natural_of_enumerator(
    alloc: Global,
    begin: &[u8],
    encoding: &Encoding<'_>,
    name: &[u8],
) -> Result<Vec<u8>, NoMemory>
    ensures { IfOk result (λ r. r.items ≡ names.natural begin.now (enumerator_path encoding.now name.now)) }
{
    natural(alloc, begin, &path_of_enumerator(alloc, encoding, name)?)
}

fn push_naturals(
    alloc: Global,
    into: &mut Vec<Text>,
    begin: &[u8],
    encoding: &Encoding<'_>,
) -> Result<(), NoMemory>
    ensures { OnOk result (into.new.items ≡ into.old.items ++ spec.own_naturals begin.now encoding.now) }
{
    for at in 0..count_of(encoding) {
        let (name, _) = enumerator_at(encoding, at);
        let bytes = natural_of_enumerator(alloc, begin, encoding, name)?;
        into.push(Text { bytes })?;
    }
    Ok(())
}

fn enumerator_naturals(
    alloc: Global,
    begin: &[u8],
    list: &[Encoding<'_>],
) -> Result<Vec<Text>, NoMemory>
    ensures { IfOk result (λ r. r.items ≡ spec.enumerator_naturals begin.now list.now) }
{
    let mut names = Vec::new(alloc);
    for encoding in list {
        push_naturals(alloc, &mut names, begin, encoding)?;
    }
    Ok(names)
}

fn exact_of_enumerator(
    alloc: Global,
    begin: &[u8],
    path: &[u8],
    name: &[u8],
) -> Result<Vec<u8>, NoMemory>
    ensures { IfOk result (λ r. r.items ≡ enumerator_exact begin.now path.now name.now) }
{
    let mut text = exact(alloc, begin, b'e', path)?;
    text.extend_from_slice(b"_1")?;
    push_spelled(&mut text, name)?;
    Ok(text)
}

fn enumerator_name(
    alloc: Global,
    begin: &[u8],
    path: &[u8],
    repeats: &Repeats,
    encoding: &Encoding<'_>,
    name: &[u8],
) -> Result<Vec<u8>, NoMemory>
    ensures { IfOk result (λ r. r.items ≡ name_among repeats.now (enumerator_base begin.now path.now encoding.now name.now)) }
{
    let plain = natural_of_enumerator(alloc, begin, encoding, name)?;
    if repeats.contains(&plain) {
        return exact_of_enumerator(alloc, begin, path, name);
    }
    Ok(plain)
}

fn push_enumerator(
    alloc: Global,
    text: &mut Vec<u8>,
    begin: &[u8],
    path: &[u8],
    repeats: &Repeats,
    encoding: &Encoding<'_>,
    name: &[u8],
    value: u64,
) -> Result<(), NoMemory>
    ensures { OnOk result (text.new.items ≡ text.old.items ++ line (enumerator_macro begin.now path.now repeats.now encoding.now (name.now, value))) }
{
    let base = enumerator_name(alloc, begin, path, repeats, encoding, name)?;
    push_number(text, &base, b"_VALUE", value)
}

fn push_enumerators(
    alloc: Global,
    text: &mut Vec<u8>,
    begin: &[u8],
    path: &[u8],
    repeats: &Repeats,
    encoding: &Encoding<'_>,
) -> Result<(), NoMemory>
    ensures { OnOk result (text.new.items ≡ text.old.items ++ lines (map (enumerator_macro begin.now path.now repeats.now encoding.now) encoding.now.entries)) }
{
    for at in 0..count_of(encoding) {
        let (name, value) = enumerator_at(encoding, at);
        push_enumerator(alloc, text, begin, path, repeats, encoding, name, value)?;
    }
    Ok(())
}

fn push_comment(
    alloc: Global,
    text: &mut Vec<u8>,
    block: &Block,
    encoding: &Encoding<'_>,
) -> Result<(), NoMemory>
    ensures { OnOk result (text.new.items ≡ text.old.items ++ enumeration_comment block.now encoding.now) }
{
    text.extend_from_slice(b"\n/* enum ")?;
    text.extend_from_slice(encoding.name)?;
    text.extend_from_slice(b" of ")?;
    push_shown(alloc, text, path_of_user(block, encoding), &[])?;
    text.extend_from_slice(b" */\n")?;
    Ok(())
}

fn push_enumeration(
    alloc: Global,
    text: &mut Vec<u8>,
    block: &Block,
    begin: &[u8],
    repeats: &Repeats,
    encoding: &Encoding<'_>,
) -> Result<(), NoMemory>
    ensures { OnOk result (text.new.items ≡ text.old.items ++ header.enumeration_text block.now begin.now repeats.now encoding.now) }
{
    push_comment(alloc, text, block, encoding)?;
    push_enumerators(
        alloc,
        text,
        begin,
        path_of_user(block, encoding),
        repeats,
        encoding,
    )
}

fn push_each(
    alloc: Global,
    text: &mut Vec<u8>,
    block: &Block,
    begin: &[u8],
    repeats: &Repeats,
    list: &[Encoding<'_>],
) -> Result<(), NoMemory>
    ensures { OnOk result (text.new.items ≡ text.old.items ++ flat_map (header.enumeration_text block.now begin.now repeats.now) list.now) }
{
    for encoding in list {
        push_enumeration(alloc, text, block, begin, repeats, encoding)?;
    }
    Ok(())
}

/// Adds the macros of enumerations. The only error is want of memory.
pub(crate) fn push_enumerations(
    alloc: Global,
    text: &mut Vec<u8>,
    block: &Block,
    begin: &[u8],
    list: &[Encoding<'_>],
) -> Result<(), NoMemory>
    ensures { OnOk result (text.new.items ≡ text.old.items ++ header.enumeration_texts block.now begin.now list.now) }
{
    let names = enumerator_naturals(alloc, begin, list)?;
    let repeats = Repeats::of(alloc, &names)?;
    push_each(alloc, text, block, begin, &repeats, list)
}
