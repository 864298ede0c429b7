//! The names of macros.

ghost use Rattle.std.specs.Prelude.{◌≡◌, ◌++◌, IfOk, OnOk};
ghost use Rattle.c_header.specs.Names as names;
ghost use Rattle.c_header.specs.Names.{spelled, spelled_byte, words};
ghost use Rattle.word_groups.specs.Paths.{behind};

use rb_base::NoMemory;
use std::alloc::Global;

fn is_gap(byte: u8) -> bool
    ensures { result ≡ names.is_gap byte }
{
    byte == b'_' || byte == b'$'
}

fn upper(byte: u8) -> u8
    ensures { result ≡ names.upper byte }
{
    if b'a' <= byte && byte <= b'z' {
        byte - 32
    } else {
        byte
    }
}

/// Adds the words of a name or path, each behind a `_`. The only error is want of memory.
pub(crate) fn push_words(text: &mut Vec<u8>, path: &[u8]) -> Result<(), NoMemory>
    ensures { OnOk result (text.new.items ≡ text.old.items ++ behind 95 (words path.now)) }
{
    let mut is_inside = false;
    let mut rest = path;
    while let [byte, more @ ..] = rest {
        let byte = upper(*byte);
        if is_gap(byte) {
            is_inside = false;
        } else {
            if !is_inside {
                text.push(b'_')?;
            }
            text.push(byte)?;
            is_inside = true;
        }
        rest = more;
    }
    Ok(())
}

fn begins_digit(text: &[u8]) -> bool
    ensures { result ≡ names.begins_digit text.now }
{
    match text {
        [] => false,
        [byte, ..] => byte.is_ascii_digit(),
    }
}

// Words without their first `_`.
fn opened(alloc: Global, words: &[u8]) -> Result<Vec<u8>, NoMemory>
    ensures { IfOk result (λ r. r.items ≡ names.opened words.now) }
{
    let mut text = Vec::new(alloc);
    match words {
        [] => text.push(b'R')?,
        [_, rest @ ..] => {
            if begins_digit(rest) {
                text.push(b'R')?;
            }
            text.extend_from_slice(rest)?;
        }
    }
    Ok(text)
}

/// At most the first 900 bytes of a name.
#[tactic(auto, unfolding(crate::specs::Names::first_bytes))]
pub(crate) fn first_bytes(name: &[u8]) -> &[u8]
    ensures { result.now ≡ names.first_bytes name.now }
{
    if name.len() > 900 { &name[..900] } else { name }
}

/// What each macro's name begins with. The only error is want of memory.
pub(crate) fn prefix(alloc: Global, top: &[u8]) -> Result<Vec<u8>, NoMemory>
    ensures { IfOk result (λ r. r.items ≡ names.prefix top.now) }
{
    let mut words = Vec::new(alloc);
    push_words(&mut words, first_bytes(top))?;
    opened(alloc, &words)
}

/// The name as one would write it. The only error is want of memory.
pub(crate) fn natural(alloc: Global, begin: &[u8], path: &[u8]) -> Result<Vec<u8>, NoMemory>
    ensures { IfOk result (λ r. r.items ≡ names.natural begin.now path.now) }
{
    let mut name = Vec::from_slice(alloc, begin)?;
    push_words(&mut name, path)?;
    Ok(name)
}

fn push_spelled_byte(text: &mut Vec<u8>, byte: u8) -> Result<(), NoMemory>
    ensures { OnOk result (text.new.items ≡ text.old.items ++ spelled_byte byte) }
{
    match byte {
        b'_' => text.extend_from_slice(b"_0")?,
        b'$' => text.extend_from_slice(b"_1")?,
        _ => text.push(byte)?,
    }
    Ok(())
}

/// Adds a path byte by byte, `_0` for `_` and `_1` for `$`. The only error is want of memory.
pub(crate) fn push_spelled(text: &mut Vec<u8>, path: &[u8]) -> Result<(), NoMemory>
    ensures { OnOk result (text.new.items ≡ text.old.items ++ spelled path.now) }
{
    for byte in path {
        push_spelled_byte(text, *byte)?;
    }
    Ok(())
}

/// The name that tells any two paths apart. The only error is want of memory.
pub(crate) fn exact(alloc: Global, begin: &[u8], mark: u8, path: &[u8]) -> Result<Vec<u8>, NoMemory>
    ensures { IfOk result (λ r. r.items ≡ names.exact begin.now mark path.now) }
{
    let mut name = Vec::from_slice(alloc, begin)?;
    name.push(b'_')?;
    name.push(mark)?;
    push_spelled(&mut name, path)?;
    Ok(name)
}
