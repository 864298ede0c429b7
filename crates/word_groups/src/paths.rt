//! The names and indices of paths.

ghost use Rattle.std.specs.Prelude.{◌≡◌, ◌≤◌, ◌++◌, ◌∷◌, [], IfOk, OnOk, drop};
ghost use Rattle.word_groups.specs.Paths as paths;
ghost use Rattle.word_groups.specs.Paths.{behind, bracketed, shown};

use crate::numbers::Numbers;
use itoa::Buffer;
use rb_base::{NoMemory, Text};
use std::alloc::Global;

/// What stands before, between and behind the `$` of a path. The only error is want of memory.
pub fn names_and_indices(alloc: Global, path: &[u8]) -> Result<Vec<Text>, NoMemory>
    ensures { IfOk result (λ r. r.items ≡ paths.names_and_indices path.now) }
{
    let mut pieces = Vec::new(alloc);
    let mut piece = Vec::new(alloc);
    let mut rest = path;
    while let [byte, behind @ ..] = rest {
        if *byte == b'$' {
            pieces.push(Text { bytes: piece })?;
            piece = Vec::new(alloc);
        } else {
            piece.push(*byte)?;
        }
        rest = behind;
    }
    pieces.push(Text { bytes: piece })?;
    Ok(pieces)
}

/// Whether a piece of a path is an index, and else a name.
pub fn is_index(piece: &[u8]) -> bool
    ensures { result ≡ paths.is_index piece.now }
{
    if piece.is_empty() {
        return false;
    }
    for byte in piece {
        if !byte.is_ascii_digit() {
            return false;
        }
    }
    true
}

fn with_digit(number: u32, digit: u8) -> u32
    requires { number ≤ 99999999 }
    ensures number { result ≡ paths.with_digit number digit }
    ensures within { result ≤ 99999999 }
{
    let more = number * 10 + u32::from(digit.saturating_sub(b'0'));
    if more < 99_999_999 { more } else { 99_999_999 }
}

fn number_of(digits: &[u8]) -> u32
    ensures number { result ≡ paths.number_of digits.now }
    ensures within { result ≤ 99999999 }
{
    let mut number = 0;
    for digit in digits {
        number = with_digit(number, *digit);
    }
    number
}

/// The indices of a path. The only error is want of memory.
pub(crate) fn indices(alloc: Global, path: &[u8]) -> Result<Numbers, NoMemory>
    ensures { IfOk result (λ r. r ≡ paths.indices path.now) }
{
    let pieces = names_and_indices(alloc, path)?;
    let mut items = Vec::new(alloc);
    for piece in &pieces {
        if is_index(&piece.bytes) {
            items.push(number_of(&piece.bytes))?;
        }
    }
    Ok(Numbers { items })
}

fn without_first(bytes: &[u8]) -> &[u8]
    ensures { result.now ≡ drop 1 bytes.now }
{
    match bytes {
        [] => bytes,
        [_, rest @ ..] => rest,
    }
}

fn push_behind(text: &mut Vec<u8>, gap: u8, piece: &[u8]) -> Result<(), NoMemory>
    ensures { OnOk result (text.new.items ≡ text.old.items ++ behind gap (piece.now ∷ [])) }
{
    text.push(gap)?;
    text.extend_from_slice(piece)?;
    Ok(())
}

/// Adds a path without its indices. The only error is want of memory.
pub fn push_names(alloc: Global, text: &mut Vec<u8>, path: &[u8]) -> Result<(), NoMemory>
    ensures { OnOk result (text.new.items ≡ text.old.items ++ paths.names_of path.now) }
{
    let pieces = names_and_indices(alloc, path)?;
    let mut names = Vec::new(alloc);
    for piece in &pieces {
        if !is_index(&piece.bytes) {
            push_behind(&mut names, b'$', &piece.bytes)?;
        }
    }
    text.extend_from_slice(without_first(&names))?;
    Ok(())
}

/// The last name of a path. The only error is want of memory.
pub(crate) fn last_name(alloc: Global, path: &[u8]) -> Result<Text, NoMemory>
    ensures { IfOk result (λ r. r ≡ paths.last_name path.now) }
{
    let mut bytes = Vec::new(alloc);
    for byte in path {
        if *byte == b'$' {
            bytes.clear();
        } else {
            bytes.push(*byte)?;
        }
    }
    Ok(Text { bytes })
}

fn push_bracketed(text: &mut Vec<u8>, index: &[u8], lengths: &[u32]) -> Result<(), NoMemory>
    ensures { OnOk result (text.new.items ≡ text.old.items ++ bracketed index.now lengths.now) }
{
    match lengths {
        [] => {
            text.push(b'[')?;
            text.extend_from_slice(index)?;
        }
        [length, ..] => {
            let mut buffer = Buffer::new();
            text.extend_from_slice(b"[0..")?;
            text.extend_from_slice(buffer.format(length.saturating_sub(1)).as_bytes())?;
        }
    }
    text.push(b']')?;
    Ok(())
}

fn behind_first(numbers: &[u32]) -> &[u32]
    ensures { result.now ≡ drop 1 numbers.now }
{
    match numbers {
        [] => numbers,
        [_, rest @ ..] => rest,
    }
}

fn push_pieces(text: &mut Vec<u8>, pieces: &[Text], lengths: &[u32]) -> Result<(), NoMemory>
    ensures { OnOk result (text.new.items ≡ text.old.items ++ paths.shown_pieces pieces.now lengths.now) }
{
    let mut left = lengths;
    let mut rest = pieces;
    while let [piece, more @ ..] = rest {
        if is_index(&piece.bytes) {
            push_bracketed(text, &piece.bytes, left)?;
            left = behind_first(left);
        } else {
            push_behind(text, b'.', &piece.bytes)?;
        }
        rest = more;
    }
    Ok(())
}

/// Adds a path as a reader writes it, with the ranges of an array's indices. The only error is want of memory.
pub fn push_shown(
    alloc: Global,
    text: &mut Vec<u8>,
    path: &[u8],
    lengths: &[u32],
) -> Result<(), NoMemory>
    ensures { OnOk result (text.new.items ≡ text.old.items ++ shown path.now lengths.now) }
{
    let pieces = names_and_indices(alloc, path)?;
    let mut all = Vec::new(alloc);
    push_pieces(&mut all, &pieces, lengths)?;
    text.extend_from_slice(without_first(&all))?;
    Ok(())
}
