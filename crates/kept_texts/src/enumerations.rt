//! Enumerations by which fields are encoded that outlive their source.

ghost use Rattle.std.specs.Prelude.{◌≡◌, IfOk};
ghost use Rattle.kept_texts.specs.Entries.{named};

use crate::text::keep;
use bumpalo::Bump;
use encodings::{Encoding, Encodings};
use rb_base::NoMemory;
use std::alloc::Global;

fn keep_entries<'n>(
    alloc: Global,
    arena: &'n Bump,
    entries: &[(&[u8], u64)],
) -> Result<Vec<(&'n [u8], u64)>, NoMemory>
    ensures { IfOk result (λ r. named r.items ≡ named entries.now) }
{
    let mut list = Vec::with_capacity(alloc, entries.len())?;
    for entry in entries {
        let name = keep(arena, entry.0)?;
        list.push((name, entry.1))?;
    }
    Ok(list)
}

fn keep_encoding<'n>(
    alloc: Global,
    arena: &'n Bump,
    encoding: &Encoding<'_>,
) -> Result<Encoding<'n>, NoMemory>
    ensures { IfOk result (λ r. r ≡ encoding.now) }
{
    Ok(Encoding {
        name: keep(arena, encoding.name)?,
        place: encoding.place,
        field: encoding.field,
        entries: keep_entries(alloc, arena, &encoding.entries)?,
    })
}

fn keep_all<'n>(
    alloc: Global,
    arena: &'n Bump,
    encodings: &[Encoding<'_>],
) -> Result<Vec<Encoding<'n>>, NoMemory>
    ensures { IfOk result (λ r. r.items ≡ encodings.now) }
{
    let mut list = Vec::with_capacity(alloc, encodings.len())?;
    for encoding in encodings {
        let kept = keep_encoding(alloc, arena, encoding)?;
        list.push(kept)?;
    }
    Ok(list)
}

/// The same encodings, with their texts in the arena. The only error is want of memory.
pub fn keep_encodings<'n>(
    alloc: Global,
    arena: &'n Bump,
    encodings: Encodings<'_>,
) -> Result<Encodings<'n>, NoMemory>
    ensures { IfOk result (λ r. r ≡ encodings.entry) }
{
    let Encodings { list, fields } = encodings;
    let list = keep_all(alloc, arena, &list)?;
    Ok(Encodings { list, fields })
}
