//! The table of groups.

ghost use Rattle.std.specs.Prelude.{flat_map};
ghost use Rattle.html_manual.specs.Groups as spec;
ghost use Rattle.html_text.specs.Writing.{Writes, at};

use block_effects::{Group, Note};
use html_text::{Pen, put, put_paragraph};
use manual_words::{Sight, put_path};
use rb_edge::Sink;

fn put_path_cell<K: Sink>(pen: &mut Pen, out: &mut K, sight: &Sight<'_>, path: &[u8])
    ensures { Writes (at (K.told out.old) (K.faults out.old) pen.old) (at (K.told out.new) (K.faults out.new) pen.new) (spec.path_cell sight.now path.now) }
{
    put(pen, out, b"<tr><td class=\"f\"><code>");
    put_path(pen, out, sight, path);
    put(pen, out, b"</code></td><td class=\"m\">");
}

fn put_path_of<K: Sink>(pen: &mut Pen, out: &mut K, sight: &Sight<'_>, group: &Group<'_>)
    ensures { Writes (at (K.told out.old) (K.faults out.old) pen.old) (at (K.told out.new) (K.faults out.new) pen.new) (spec.path_cell sight.now group.now.path) }
{
    put_path_cell(pen, out, sight, &group.path.bytes);
}

fn put_texts<K: Sink>(pen: &mut Pen, out: &mut K, note: &Note<'_>)
    ensures { Writes (at (K.told out.old) (K.faults out.old) pen.old) (at (K.told out.new) (K.faults out.new) pen.new) (spec.texts note.now) }
{
    put_paragraph(pen, out, note.name);
    put_paragraph(pen, out, note.desc);
}

fn put_texts_of<K: Sink>(pen: &mut Pen, out: &mut K, group: &Group<'_>)
    ensures { Writes (at (K.told out.old) (K.faults out.old) pen.old) (at (K.told out.new) (K.faults out.new) pen.new) (spec.texts group.now.said) }
{
    put_texts(pen, out, &group.note);
}

fn put_group<K: Sink>(pen: &mut Pen, out: &mut K, sight: &Sight<'_>, group: &Group<'_>)
    ensures { Writes (at (K.told out.old) (K.faults out.old) pen.old) (at (K.told out.new) (K.faults out.new) pen.new) (spec.group_row sight.now group.now) }
{
    put_path_of(pen, out, sight, group);
    put_texts_of(pen, out, group);
    put(pen, out, b"</td></tr>\n");
}

fn put_rows<K: Sink>(pen: &mut Pen, out: &mut K, sight: &Sight<'_>, groups: &[Group<'_>])
    ensures { Writes (at (K.told out.old) (K.faults out.old) pen.old) (at (K.told out.new) (K.faults out.new) pen.new) (flat_map (spec.group_row sight.now) groups.now) }
{
    for group in groups {
        put_group(pen, out, sight, group);
    }
}

fn put_groups_head<K: Sink>(pen: &mut Pen, out: &mut K)
    ensures { Writes (at (K.told out.old) (K.faults out.old) pen.old) (at (K.told out.new) (K.faults out.new) pen.new) spec.groups_head }
{
    put(
        pen,
        out,
        b"<h2>Groups</h2>\n<p>Address maps and register files with a text. Of an array's elements with the same texts the first is listed.</p>\n<div class=\"wide\">\n<table>\n<tr><th scope=\"col\">Group</th><th scope=\"col\">Meaning</th></tr>\n",
    );
}

fn put_table<K: Sink>(pen: &mut Pen, out: &mut K, sight: &Sight<'_>, groups: &[Group<'_>])
    ensures { Writes (at (K.told out.old) (K.faults out.old) pen.old) (at (K.told out.new) (K.faults out.new) pen.new) (spec.groups_table sight.now groups.now) }
{
    put_groups_head(pen, out);
    put_rows(pen, out, sight, groups);
    put(pen, out, b"</table>\n</div>\n");
}

/// Writes the table of groups, if there are any.
#[tactic(auto, using(html_text::proofs::Wrote::nothing))]
pub(crate) fn put_groups<K: Sink>(
    pen: &mut Pen,
    out: &mut K,
    sight: &Sight<'_>,
    groups: &[Group<'_>],
)
    ensures { Writes (at (K.told out.old) (K.faults out.old) pen.old) (at (K.told out.new) (K.faults out.new) pen.new) (spec.groups sight.now groups.now) }
{
    if !groups.is_empty() {
        put_table(pen, out, sight, groups);
    }
}
