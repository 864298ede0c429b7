//! Lists of one thing a line.

use rb_edge::{FileShelf, load};
use std::str;

// More than any file of `data/` has, in bytes.
const LIMIT: u32 = 1 << 20;

/// The text of a file of `data/`. None where it can't be had.
pub(crate) fn text_of(rt: HostRuntime, name: &str) -> Option<String> {
    let mut shelf = FileShelf::new(&rt);
    let bytes = load(rt.alloc(), &mut shelf, name, LIMIT).ok()?;
    let text = str::from_utf8(&bytes).ok()?;
    String::from_str(rt.alloc(), text).ok()
}

/// The first word of a line, and what stands behind it.
pub(crate) fn parts(line: &str) -> (&str, &str) {
    match line.split_once(' ') {
        Some(parts) => parts,
        None => (line, ""),
    }
}

/// The number that a word is. None where it is none.
pub(crate) fn number(word: &str) -> Option<u64> {
    word.parse::<u64>().ok()
}
