//! How items and pins are written, seen from a word.

ghost use Rattle.std.specs.Prelude.{◌≡◌, ◌<◌, ◌∷◌, ◌++◌, [], IfSome, drop, false, get_or, length, option_copied, position, true};
ghost use Rattle.manual_words.specs.Names as spec;
ghost use Rattle.word_groups.specs.Paths as paths;
ghost use Rattle.html_text.specs.Writing.{Writes, at};

use encodings::Encodings;
use html_text::{Pen, put, put_link_begin, put_link_end, put_number};
use rb_base::Text;
use rb_edge::Sink;
use rb_model::{Block, Feed, RefItem};
use std::marker::Model;
use word_groups::is_index;

/// From where names are seen: the pieces of a register's path, whether its own indices are written by their names, the marks of the
/// places of fields and registers in the page, by their numbers, and the enumerations. A mark may be missing.
#[derive(Drop)]
pub struct Sight<'s> {
    pub block: &'s Block,
    pub own: &'s [Text],
    pub named: bool,
    pub fields: &'s [Text],
    pub regs: &'s [Text],
    pub encodings: &'s Encodings<'s>,
}

impl<'s> Model for Sight<'s> {
    ghost use Rattle.manual_words.specs.Names.{Sight as Seen};

    ghost Value = { Seen };

    ghost view = { λ s. record { block = s.block.now; own = s.own.now; named = s.named; fields = s.fields.now; regs = s.regs.now; encodings = s.encodings.now } };
}

// The place of the first `$`.
fn place_of_dollar(path: &[u8]) -> Option<usize>
    ensures { result ≡ position paths.is_dollar path.now }
{
    path.iter().position(|byte| *byte == b'$')
}

// The first piece of a path, and what stands behind its `$`.
fn cut(path: &[u8]) -> (&[u8], Option<&[u8]>)
    ensures pieces { paths.names_and_indices path.now ≡ result.0.now ∷ spec.pieces_of (option_copied result.1) }
    ensures shorter { IfSome result.1 (λ rest. length rest.now < length path.now) }
{
    match place_of_dollar(path) {
        Some(end) => (&path[..end], Some(&path[end + 1..])),
        None => (path, None),
    }
}

fn begins(own: &[Text], piece: &[u8]) -> bool
    ensures { result ≡ spec.begins own.now piece.now }
{
    match own {
        [] => false,
        [first, ..] => first.bytes.as_slice() == piece,
    }
}

fn is_own(same: bool, own: &[Text], piece: &[u8]) -> bool
    ensures { result ≡ spec.is_own same own.now piece.now }
{
    same && begins(own, piece)
}

fn next_index(index: u32, piece: &[u8]) -> u32
    ensures { result ≡ spec.next_index index piece.now }
{
    if is_index(piece) {
        index.saturating_add(1)
    } else {
        index
    }
}

fn behind_first(pieces: &[Text]) -> &[Text]
    ensures { result.now ≡ drop 1 pieces.now }
{
    match pieces {
        [] => pieces,
        [_, rest @ ..] => rest,
    }
}

fn lead(dotted: bool, first: bool) -> &'static [u8]
    ensures { result.now ≡ spec.lead dotted first }
{
    if first {
        b""
    } else if dotted {
        b"."
    } else {
        b"$"
    }
}

fn put_lead<K: Sink>(pen: &mut Pen, out: &mut K, dotted: bool, first: bool)
    ensures { Writes (at (K.told out.old) (K.faults out.old) pen.old) (at (K.told out.new) (K.faults out.new) pen.new) (spec.lead dotted first) }
{
    put(pen, out, lead(dotted, first));
}

fn put_index<K: Sink>(pen: &mut Pen, out: &mut K, index: u32)
    ensures { Writes (at (K.told out.old) (K.faults out.old) pen.old) (at (K.told out.new) (K.faults out.new) pen.new) (spec.index_name index) }
{
    put(pen, out, b"i");
    put_number(pen, out, index);
}

fn put_name<K: Sink>(pen: &mut Pen, out: &mut K, own: bool, index: u32, piece: &[u8])
    ensures { Writes (at (K.told out.old) (K.faults out.old) pen.old) (at (K.told out.new) (K.faults out.new) pen.new) (spec.piece_name own index piece.now) }
{
    if is_index(piece) && own {
        put_index(pen, out, index);
    } else {
        put(pen, out, piece);
    }
}

fn put_bracketed<K: Sink>(pen: &mut Pen, out: &mut K, own: bool, index: u32, piece: &[u8])
    ensures { Writes (at (K.told out.old) (K.faults out.old) pen.old) (at (K.told out.new) (K.faults out.new) pen.new) (spec.bracketed (spec.piece_name own index piece.now)) }
{
    put(pen, out, b"[");
    put_name(pen, out, own, index, piece);
    put(pen, out, b"]");
}

fn put_led<K: Sink>(
    pen: &mut Pen,
    out: &mut K,
    dotted: bool,
    first: bool,
    own: bool,
    index: u32,
    piece: &[u8],
)
    ensures { Writes (at (K.told out.old) (K.faults out.old) pen.old) (at (K.told out.new) (K.faults out.new) pen.new) (spec.lead dotted first ++ spec.piece_name own index piece.now) }
{
    put_lead(pen, out, dotted, first);
    put_name(pen, out, own, index, piece);
}

fn put_place<K: Sink>(
    pen: &mut Pen,
    out: &mut K,
    dotted: bool,
    first: bool,
    own: bool,
    index: u32,
    piece: &[u8],
)
    ensures { Writes (at (K.told out.old) (K.faults out.old) pen.old) (at (K.told out.new) (K.faults out.new) pen.new) (spec.place_text dotted first own index piece.now) }
{
    if dotted && is_index(piece) {
        put_bracketed(pen, out, own, index, piece);
    } else {
        put_led(pen, out, dotted, first, own, index, piece);
    }
}

/// Writes a path, `dotted` as a reader writes it, or else as the names of pins do.
pub fn put_relative<K: Sink>(
    pen: &mut Pen,
    out: &mut K,
    dotted: bool,
    named: bool,
    own: &[Text],
    path: &[u8],
)
    ensures { Writes (at (K.told out.old) (K.faults out.old) pen.old) (at (K.told out.new) (K.faults out.new) pen.new) (spec.relative dotted named own.now path.now) }
{
    let mut same = named;
    let mut first = true;
    let mut index = 0;
    let mut left = own;
    let mut rest = Some(path);
    while let Some(path) = rest {
        let (piece, behind) = cut(path);
        same = is_own(same, left, piece);
        put_place(pen, out, dotted, first, same, index, piece);
        first = false;
        index = next_index(index, piece);
        left = behind_first(left);
        rest = behind;
    }
}

fn mark_at(marks: &[Text], number: usize) -> &[u8]
    ensures { result.now ≡ get_or marks.now number [] }
{
    match marks.get(number) {
        Some(mark) => &mark.bytes,
        None => b"",
    }
}

fn path_of_field(block: &Block, number: usize) -> &[u8]
    ensures { result.now ≡ spec.field_path block.now number }
{
    match block.fields.items.get(number) {
        Some(field) => &field.path.bytes,
        None => b"",
    }
}

fn path_of_reg(block: &Block, number: usize) -> &[u8]
    ensures { result.now ≡ spec.reg_path block.now number }
{
    match block.regs.items.get(number) {
        Some(register) => &register.path.bytes,
        None => b"",
    }
}

fn path_of_signal(block: &Block, number: usize) -> &[u8]
    ensures { result.now ≡ spec.signal_path block.now number }
{
    match block.signals.items.get(number) {
        Some(signal) => &signal.path.bytes,
        None => b"",
    }
}

/// Writes a path as a reader writes it.
pub fn put_path<K: Sink>(pen: &mut Pen, out: &mut K, sight: &Sight<'_>, path: &[u8])
    ensures { Writes (at (K.told out.old) (K.faults out.old) pen.old) (at (K.told out.new) (K.faults out.new) pen.new) (spec.relative true sight.now.named sight.now.own path.now) }
{
    put_relative(pen, out, true, sight.named, sight.own, path);
}

fn put_pin_path<K: Sink>(pen: &mut Pen, out: &mut K, sight: &Sight<'_>, path: &[u8])
    ensures { Writes (at (K.told out.old) (K.faults out.old) pen.old) (at (K.told out.new) (K.faults out.new) pen.new) (spec.relative false sight.now.named sight.now.own path.now) }
{
    put_relative(pen, out, false, sight.named, sight.own, path);
}

fn put_linked<K: Sink>(
    pen: &mut Pen,
    out: &mut K,
    sight: &Sight<'_>,
    mark: &[u8],
    path: &[u8],
    property: &[u8],
)
    ensures { Writes (at (K.told out.old) (K.faults out.old) pen.old) (at (K.told out.new) (K.faults out.new) pen.new) (spec.linked sight.now mark.now path.now property.now) }
{
    put_link_begin(pen, out, mark);
    put(pen, out, b"<code>");
    put_path(pen, out, sight, path);
    put(pen, out, property);
    put(pen, out, b"</code>");
    put_link_end(pen, out, mark);
}

/// Writes a field's name and what stands behind it, with a reference to its place.
pub fn put_field_item<K: Sink>(
    pen: &mut Pen,
    out: &mut K,
    sight: &Sight<'_>,
    number: usize,
    property: &[u8],
)
    ensures { Writes (at (K.told out.old) (K.faults out.old) pen.old) (at (K.told out.new) (K.faults out.new) pen.new) (spec.field_item sight.now number property.now) }
{
    let mark = mark_at(sight.fields, number);
    put_linked(
        pen,
        out,
        sight,
        mark,
        path_of_field(sight.block, number),
        property,
    );
}

/// Writes a register's name and what stands behind it, with a reference to its place.
pub fn put_reg_item<K: Sink>(
    pen: &mut Pen,
    out: &mut K,
    sight: &Sight<'_>,
    number: usize,
    property: &[u8],
)
    ensures { Writes (at (K.told out.old) (K.faults out.old) pen.old) (at (K.told out.new) (K.faults out.new) pen.new) (spec.reg_item sight.now number property.now) }
{
    let mark = mark_at(sight.regs, number);
    put_linked(
        pen,
        out,
        sight,
        mark,
        path_of_reg(sight.block, number),
        property,
    );
}

fn put_signal_path<K: Sink>(pen: &mut Pen, out: &mut K, sight: &Sight<'_>, number: u32)
    ensures { Writes (at (K.told out.old) (K.faults out.old) pen.old) (at (K.told out.new) (K.faults out.new) pen.new) (spec.relative true sight.now.named sight.now.own (spec.signal_path sight.now.block number)) }
{
    put_path(
        pen,
        out,
        sight,
        path_of_signal(sight.block, number as usize),
    );
}

/// Writes the name of the field of a number, with a reference.
pub fn put_field_at<K: Sink>(pen: &mut Pen, out: &mut K, sight: &Sight<'_>, number: u32)
    ensures { Writes (at (K.told out.old) (K.faults out.old) pen.old) (at (K.told out.new) (K.faults out.new) pen.new) (spec.field_item sight.now number []) }
{
    put_field_item(pen, out, sight, number as usize, b"");
}

/// Writes a signal's name, with a reference to its place.
pub fn put_signal_item<K: Sink>(pen: &mut Pen, out: &mut K, sight: &Sight<'_>, number: u32)
    ensures { Writes (at (K.told out.old) (K.faults out.old) pen.old) (at (K.told out.new) (K.faults out.new) pen.new) (spec.signal_item sight.now number) }
{
    put(pen, out, b"<a href=\"#signal::");
    put_number(pen, out, number);
    put(pen, out, b"\"><code>");
    put_signal_path(pen, out, sight, number);
    put(pen, out, b"</code></a>");
}

/// The number of the enumeration by which the field of a number is encoded, if it is.
pub fn encoded_by(sight: &Sight<'_>, number: u32) -> Option<u32>
    ensures { result ≡ spec.encoded_by sight.now number }
{
    let encodings = sight.encodings;
    match encodings.fields.get(number as usize) {
        Some(encoded) => *encoded,
        None => None,
    }
}

fn name_of_enumeration<'s>(sight: &Sight<'s>, number: u32) -> &'s [u8]
    ensures { result.now ≡ spec.enumeration_name sight.now number }
{
    let encodings = sight.encodings;
    match encodings.list.get(number as usize) {
        Some(encoding) => encoding.name,
        None => b"",
    }
}

fn put_enumeration_name<K: Sink>(pen: &mut Pen, out: &mut K, sight: &Sight<'_>, number: u32)
    ensures { Writes (at (K.told out.old) (K.faults out.old) pen.old) (at (K.told out.new) (K.faults out.new) pen.new) (spec.enumeration_name sight.now number) }
{
    put(pen, out, name_of_enumeration(sight, number));
}

/// Writes an enumeration's name, with a reference to its place.
pub fn put_enumeration_item<K: Sink>(pen: &mut Pen, out: &mut K, sight: &Sight<'_>, number: u32)
    ensures { Writes (at (K.told out.old) (K.faults out.old) pen.old) (at (K.told out.new) (K.faults out.new) pen.new) (spec.enumeration_item sight.now number) }
{
    put(pen, out, b"<a href=\"#enum::");
    put_number(pen, out, number);
    put(pen, out, b"\"><code>");
    put_enumeration_name(pen, out, sight, number);
    put(pen, out, b"</code></a>");
}

/// Writes an item's name, with a reference.
pub fn put_item<K: Sink>(pen: &mut Pen, out: &mut K, sight: &Sight<'_>, item: RefItem)
    ensures { Writes (at (K.told out.old) (K.faults out.old) pen.old) (at (K.told out.new) (K.faults out.new) pen.new) (spec.item_text sight.now item) }
{
    match item {
        RefItem::Field(k) => put_field_item(pen, out, sight, k as usize, b""),
        RefItem::Signal(k) => put_signal_item(pen, out, sight, k),
        RefItem::Anded(k) => put_field_item(pen, out, sight, k as usize, b"-&gt;anded"),
        RefItem::Ored(k) => put_field_item(pen, out, sight, k as usize, b"-&gt;ored"),
        RefItem::Xored(k) => put_field_item(pen, out, sight, k as usize, b"-&gt;xored"),
        RefItem::IncrThreshold(k) => put_field_item(
            pen,
            out,
            sight,
            k as usize,
            b"-&gt;incrthreshold",
        ),
        RefItem::DecrThreshold(k) => put_field_item(
            pen,
            out,
            sight,
            k as usize,
            b"-&gt;decrthreshold",
        ),
        RefItem::Overflow(k) => put_field_item(pen, out, sight, k as usize, b"-&gt;overflow"),
        RefItem::Underflow(k) => put_field_item(pen, out, sight, k as usize, b"-&gt;underflow"),
        RefItem::SwMod(k) => put_field_item(pen, out, sight, k as usize, b"-&gt;swmod"),
        RefItem::SwAcc(k) => put_field_item(pen, out, sight, k as usize, b"-&gt;swacc"),
        RefItem::Intr(k) => put_reg_item(pen, out, sight, k as usize, b"-&gt;intr"),
        RefItem::Halt(k) => put_reg_item(pen, out, sight, k as usize, b"-&gt;halt"),
    }
}

/// Writes the name of a pin of this role and path.
pub fn put_pin_name<K: Sink>(
    pen: &mut Pen,
    out: &mut K,
    sight: &Sight<'_>,
    role: &[u8],
    path: &[u8],
)
    ensures { Writes (at (K.told out.old) (K.faults out.old) pen.old) (at (K.told out.new) (K.faults out.new) pen.new) (spec.pin_name sight.now role.now path.now) }
{
    put(pen, out, b"<code>");
    put(pen, out, role);
    put_pin_path(pen, out, sight, path);
    put(pen, out, b"</code>");
}

/// Writes the same behind the word `pin`.
pub fn put_pin<K: Sink>(pen: &mut Pen, out: &mut K, sight: &Sight<'_>, role: &[u8], path: &[u8])
    ensures { Writes (at (K.told out.old) (K.faults out.old) pen.old) (at (K.told out.new) (K.faults out.new) pen.new) (spec.pin_text sight.now role.now path.now) }
{
    put(pen, out, b"pin ");
    put_pin_name(pen, out, sight, role, path);
}

/// Writes what a value comes from.
#[tactic(auto, using(html_text::proofs::Wrote::nothing))]
pub fn put_feed<K: Sink>(
    pen: &mut Pen,
    out: &mut K,
    sight: &Sight<'_>,
    from: Feed,
    role: &[u8],
    path: &[u8],
)
    ensures { Writes (at (K.told out.old) (K.faults out.old) pen.old) (at (K.told out.new) (K.faults out.new) pen.new) (spec.feed_text sight.now from role.now path.now) }
{
    match from {
        Feed::Off => (),
        Feed::Pin => put_pin(pen, out, sight, role, path),
        Feed::Item(item) => put_item(pen, out, sight, item),
    }
}
