//! The table of signals.

ghost use Rattle.std.specs.Prelude.{◌≡◌, ◌++◌, codes, flat_map, if◌then◌else◌};
ghost use Rattle.std.specs.List.{enumerate_from};
ghost use Rattle.html_manual.specs.Groups.{texts};
ghost use Rattle.html_manual.specs.Page as spec;
ghost use Rattle.manual_sections.specs.Rows.{said_at};
ghost use Rattle.html_text.specs.Tags as tags;
ghost use Rattle.html_text.specs.Writing.{Writes, at};
ghost use Rattle.rb_model.specs.Ports.{signal_name};

use block_effects::Note;
use html_text::{Pen, put, put_place, put_small};
use manual_sections::{put_desc_at, put_name_at};
use rb_edge::Sink;
use rb_model::Signal;

fn role(root: bool) -> &'static [u8]
    ensures { result.now ≡ (if root then codes "global$" else codes "signal$") }
{
    if root { b"global$" } else { b"signal$" }
}

fn put_role<K: Sink>(pen: &mut Pen, out: &mut K, root: bool)
    ensures { Writes (at (K.told out.old) (K.faults out.old) pen.old) (at (K.told out.new) (K.faults out.new) pen.new) (if root then codes "global$" else codes "signal$") }
{
    put(pen, out, role(root));
}

fn put_joined<K: Sink>(pen: &mut Pen, out: &mut K, root: bool, path: &[u8])
    ensures { Writes (at (K.told out.old) (K.faults out.old) pen.old) (at (K.told out.new) (K.faults out.new) pen.new) ((if root then codes "global$" else codes "signal$") ++ path.now) }
{
    put_role(pen, out, root);
    put(pen, out, path);
}

fn put_signal_name<K: Sink>(pen: &mut Pen, out: &mut K, signal: &Signal)
    ensures { Writes (at (K.told out.old) (K.faults out.old) pen.old) (at (K.told out.new) (K.faults out.new) pen.new) (signal_name signal.now) }
{
    put_joined(pen, out, signal.root, &signal.path.bytes);
}

fn put_pin<K: Sink>(pen: &mut Pen, out: &mut K, signal: &Signal)
    ensures { Writes (at (K.told out.old) (K.faults out.old) pen.old) (at (K.told out.new) (K.faults out.new) pen.new) (tags.code (signal_name signal.now)) }
{
    put(pen, out, b"<code>");
    put_signal_name(pen, out, signal);
    put(pen, out, b"</code>");
}

fn put_cells<K: Sink>(pen: &mut Pen, out: &mut K, number: usize, signal: &Signal)
    ensures { Writes (at (K.told out.old) (K.faults out.old) pen.old) (at (K.told out.new) (K.faults out.new) pen.new) (spec.signal_cells number signal.now) }
{
    put(pen, out, b"<tr><td class=\"f\" id=\"signal::");
    put_place(pen, out, number);
    put(pen, out, b"\">");
    put_pin(pen, out, signal);
    put(pen, out, b"</td><td class=\"n\">");
    put_small(pen, out, signal.width);
    put(pen, out, b"</td><td class=\"m\">");
}

/// Writes what the source says of the part of a number.
pub(crate) fn put_texts<K: Sink>(pen: &mut Pen, out: &mut K, notes: &[Note<'_>], number: usize)
    ensures { Writes (at (K.told out.old) (K.faults out.old) pen.old) (at (K.told out.new) (K.faults out.new) pen.new) (texts (said_at notes.now number)) }
{
    put_name_at(pen, out, notes, number);
    put_desc_at(pen, out, notes, number);
}

fn put_signal<K: Sink>(
    pen: &mut Pen,
    out: &mut K,
    notes: &[Note<'_>],
    number: usize,
    signal: &Signal,
)
    ensures { Writes (at (K.told out.old) (K.faults out.old) pen.old) (at (K.told out.new) (K.faults out.new) pen.new) (spec.signal_row notes.now (number, signal.now)) }
{
    put_cells(pen, out, number, signal);
    put_texts(pen, out, notes, number);
    put(pen, out, b"</td></tr>\n");
}

fn put_rows<K: Sink>(pen: &mut Pen, out: &mut K, notes: &[Note<'_>], signals: &[Signal])
    ensures { Writes (at (K.told out.old) (K.faults out.old) pen.old) (at (K.told out.new) (K.faults out.new) pen.new) (flat_map (spec.signal_row notes.now) (enumerate_from 0 signals.now)) }
{
    for (at, signal) in signals.iter().enumerate() {
        put_signal(pen, out, notes, at, signal);
    }
}

fn put_signals_head<K: Sink>(pen: &mut Pen, out: &mut K)
    ensures { Writes (at (K.told out.old) (K.faults out.old) pen.old) (at (K.told out.new) (K.faults out.new) pen.new) spec.signals_head }
{
    put(
        pen,
        out,
        b"<h2>Signals</h2>\n<div class=\"wide\">\n<table>\n<tr><th scope=\"col\">Pin</th><th scope=\"col\">Bits</th><th scope=\"col\">Meaning</th></tr>\n<tr><td class=\"f\"><code>PRESETn</code></td><td class=\"n\">1</td><td class=\"m\">Resets every field that names no other reset; low, asynchronous.</td></tr>\n",
    );
}

/// Writes the table of signals, with what the source says of each.
pub(crate) fn put_signals<K: Sink>(
    pen: &mut Pen,
    out: &mut K,
    notes: &[Note<'_>],
    signals: &[Signal],
)
    ensures { Writes (at (K.told out.old) (K.faults out.old) pen.old) (at (K.told out.new) (K.faults out.new) pen.new) (spec.signals notes.now signals.now) }
{
    put_signals_head(pen, out);
    put_rows(pen, out, notes, signals);
    put(pen, out, b"</table>\n</div>\n");
}
