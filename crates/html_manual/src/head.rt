//! The head of the page.

ghost use Rattle.block_effects.specs.Notes.{Said};
ghost use Rattle.html_manual.specs.Page as spec;
ghost use Rattle.html_text.specs.Writing.{Writes, at};

use crate::style::put_style;
use block_effects::Note;
use html_text::{Pen, put, put_paragraph, put_three, put_title};
use rb_edge::Sink;

fn put_title_line<K: Sink>(pen: &mut Pen, out: &mut K, name: &[u8])
    ensures { Writes (at (K.told out.old) (K.faults out.old) pen.old) (at (K.told out.new) (K.faults out.new) pen.new) (spec.title_line name.now) }
{
    put_three(
        pen,
        out,
        b"<!DOCTYPE html>\n<html lang=\"en\">\n<head>\n<meta charset=\"utf-8\">\n<meta name=\"viewport\" content=\"width=device-width, initial-scale=1\">\n<title>Registers of ",
        name,
        b"</title>\n<style>\n",
    );
}

fn put_style_lines<K: Sink>(pen: &mut Pen, out: &mut K)
    ensures { Writes (at (K.told out.old) (K.faults out.old) pen.old) (at (K.told out.new) (K.faults out.new) pen.new) spec.style_lines }
{
    put_style(pen, out);
    put(pen, out, b"</style>\n</head>\n<body>\n");
}

fn put_top_heading<K: Sink>(pen: &mut Pen, out: &mut K, name: &[u8])
    ensures { Writes (at (K.told out.old) (K.faults out.old) pen.old) (at (K.told out.new) (K.faults out.new) pen.new) (spec.top_heading name.now) }
{
    put_three(
        pen,
        out,
        b"<h1>Registers of <code>",
        name,
        b"</code></h1>\n",
    );
}

/// Writes the head of the page of a block of this name, and its heading.
pub(crate) fn put_head<K: Sink>(pen: &mut Pen, out: &mut K, name: &[u8])
    ensures { Writes (at (K.told out.old) (K.faults out.old) pen.old) (at (K.told out.new) (K.faults out.new) pen.new) (spec.head name.now) }
{
    put_title_line(pen, out, name);
    put_style_lines(pen, out);
    put_top_heading(pen, out, name);
}

/// Writes what the source says of the block.
pub(crate) fn put_top_texts<K: Sink>(pen: &mut Pen, out: &mut K, note: &Note<'_>)
    ensures { Writes (at (K.told out.old) (K.faults out.old) pen.old) (at (K.told out.new) (K.faults out.new) pen.new) (spec.top_texts note.now) }
{
    put_title(pen, out, note.name);
    put_paragraph(pen, out, note.desc);
}
