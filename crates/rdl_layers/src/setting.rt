//! Settings of properties.

use rb_base::{Place, Trigger};
use rdl_base::Keyword;
use rdl_tree::{Name, Path};

/// What a property of a node is set to.
#[derive(Clone, Copy)]
pub enum Setting<'a> {
    /// Nothing.
    Unset,
    /// A boolean.
    Flag(bool),
    /// A number, below 2^64.
    Number(u64),
    /// A string: the bytes between its quotes.
    Str(&'a [u8]),
    /// A word of `addressing`, `sw`, `hw`, `onwrite` or `onread`; `wr` is `Rw`.
    Word(Keyword),
    /// An interrupt of this kind; without a trigger word it is `Level`.
    Intr(Trigger),
    /// A `precedence`, true for hardware.
    Hard(bool),
    /// The enum of this name that is visible there.
    EnumOf {
        name: &'a Name<'a>,
        /// The number of the node in whose body the assignment's text stands; the count of nodes where it stands at the
        /// root.
        scope: u32,
    },
    /// A reference: to a node, or to an item of it.
    Ref {
        path: &'a Path<'a>,
        item: &'a Option<Name<'a>>,
        /// As that of an enum.
        scope: u32,
        /// The place of the assignment.
        place: Place,
    },
}
