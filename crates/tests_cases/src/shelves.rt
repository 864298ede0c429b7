//! Shelves in memory, with files of `data/`.

ghost use Rattle.std.specs.Prelude.{◌≡◌, ◌≢◌, ℕ, false, List, None};
ghost use Rattle.std.specs.Str.{bytes_eq};
ghost use Rattle.rb_edge.specs.MemShelf.{files_of};

use crate::setup::Setup;
use rb_base::NoMemory;
use rb_edge::{FileShelf, LoadError, MemShelf, load};
use std::alloc::Global;

// More than any file of `data/` has, in bytes.
const LIMIT: u32 = 1 << 20;

/// A file by name.
#[derive(Drop)]
struct Kept {
    name: String,
    bytes: Vec<u8>,
}

// The files of `data/` that the words name, in their order.
fn named(rt: HostRuntime, words: &[String]) -> Result<Vec<Kept>, NoMemory> {
    let mut files = FileShelf::new(&rt);
    let mut kept = Vec::new(rt.alloc());
    for word in words {
        match load(rt.alloc(), &mut files, word.as_str(), LIMIT) {
            Ok(bytes) => {
                let name = String::from_str(rt.alloc(), word.as_str())?;
                kept.push(Kept { name, bytes })?;
            }
            Err(LoadError::NoMemory) => return Err(NoMemory),
            Err(_) => {}
        }
    }
    Ok(kept)
}

// The last of these files whose name is another, or else the first of all.
fn second<'f>(kept: &'f [Kept], first: &'f Kept) -> &'f Kept {
    let mut found = first;
    for file in kept {
        if file.name.as_str() != first.name.as_str() {
            found = file;
        }
    }
    found
}

// Whether two names are one.
fn is_same(one: &str, two: &str) -> bool
    ensures { result ≡ bytes_eq one.now two.now }
{
    one == two
}

// Adds a file to a shelf of one file, which has another name.
fn put_other(shelf: &mut MemShelf, one: &str, two: &str, bytes: &[u8]) -> Result<(), NoMemory>
    requires held { (any : List ℕ) → any ≢ one.now → files_of shelf.old any ≡ None }
    requires other { bytes_eq one.now two.now ≡ false }
{
    shelf.put(two, bytes)?;
    Ok(())
}

// A shelf of two files, or of the first where both have one name.
fn filled(
    alloc: Global,
    fails: u64,
    one: &str,
    bytes: &[u8],
    two: &str,
    more: &[u8],
) -> Result<MemShelf, NoMemory> {
    let mut shelf = MemShelf::new(alloc, &[fails])?;
    shelf.put(one, bytes)?;
    if !is_same(one, two) {
        put_other(&mut shelf, one, two, more)?;
    }
    Ok(shelf)
}

// A shelf of those files of `data/` that the words name, two at most.
fn of_words(rt: HostRuntime, words: &[String], fails: u64) -> Result<MemShelf, NoMemory> {
    let kept = named(rt, words)?;
    let Some(first) = kept.first() else {
        return MemShelf::new(rt.alloc(), &[fails]);
    };
    let other = second(&kept, first);
    filled(
        rt.alloc(),
        fails,
        first.name.as_str(),
        &first.bytes,
        other.name.as_str(),
        &other.bytes,
    )
}

/// A shelf of those files of `data/` that the words name, two at most, or of the one file that the setup asks for.
pub(crate) fn shelf_of(
    rt: HostRuntime,
    words: &[String],
    setup: Setup,
) -> Result<MemShelf, NoMemory> {
    if setup.spaces == 0 {
        return of_words(rt, words, setup.fails);
    }
    let spaces = vec![in rt.alloc(); b' '; setup.spaces as usize]?;
    let mut shelf = MemShelf::new(rt.alloc(), &[setup.fails])?;
    shelf.put("spaces.rdl", &spaces)?;
    Ok(shelf)
}
