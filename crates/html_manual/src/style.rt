//! The style of the page.

ghost use Rattle.html_manual.specs.Style as spec;
ghost use Rattle.html_text.specs.Writing.{Writes, at};

use html_text::{Pen, put_three};
use rb_edge::Sink;

fn put_colours<K: Sink>(pen: &mut Pen, out: &mut K)
    ensures { Writes (at (K.told out.old) (K.faults out.old) pen.old) (at (K.told out.new) (K.faults out.new) pen.new) spec.colours }
{
    put_three(
        pen,
        out,
        b":root{color-scheme:light dark;--ink:#1a1d21;--soft:#545d68;--paper:#fff;--line:#c9d0d8;--head:#f3f5f7;--link:#0b57d0}\n",
        b"@media (prefers-color-scheme:dark){:root{--ink:#e6e8eb;--soft:#a8b1bc;--paper:#16191d;--line:#434b55;--head:#22272e;--link:#8ab4f8}}\n",
        b"*{box-sizing:border-box}\n",
    );
}

fn put_headings<K: Sink>(pen: &mut Pen, out: &mut K)
    ensures { Writes (at (K.told out.old) (K.faults out.old) pen.old) (at (K.told out.new) (K.faults out.new) pen.new) spec.headings }
{
    put_three(
        pen,
        out,
        b"body{font:1rem/1.5 system-ui,sans-serif;margin:0 auto;max-width:76rem;padding:1.5rem 1rem 4rem;color:var(--ink);background:var(--paper)}\n",
        b"h1{font-size:1.9rem;margin:0 0 .25rem}h2{font-size:1.4rem;margin:2.5rem 0 .75rem;padding-bottom:.25rem;border-bottom:2px solid var(--line)}\n",
        b"h3{font-size:1.15rem;margin:0}section{margin:0 0 2.25rem;padding-top:.75rem}h1,h3{overflow-wrap:anywhere}\n",
    );
}

fn put_texts<K: Sink>(pen: &mut Pen, out: &mut K)
    ensures { Writes (at (K.told out.old) (K.faults out.old) pen.old) (at (K.told out.new) (K.faults out.new) pen.new) spec.texts }
{
    put_three(
        pen,
        out,
        b"p{margin:.35rem 0;max-width:46rem}ul{margin:0;padding-left:1.15rem}a{color:var(--link)}\n",
        b"code,.n{font-family:ui-monospace,\"DejaVu Sans Mono\",monospace;font-size:.92em}code,.text{overflow-wrap:anywhere}.text{white-space:pre-line}\n",
        b".title{font-weight:600}.at{color:var(--soft)}\n",
    );
}

fn put_cells<K: Sink>(pen: &mut Pen, out: &mut K)
    ensures { Writes (at (K.told out.old) (K.faults out.old) pen.old) (at (K.told out.new) (K.faults out.new) pen.new) spec.cells }
{
    put_three(
        pen,
        out,
        b".wide{overflow-x:auto;margin:.75rem 0}\n",
        b"table{border-collapse:collapse;width:100%;font-size:.875rem}caption{text-align:left;color:var(--soft);font-size:.8rem;padding:.35rem 0 .15rem}\n",
        b"th,td{border:1px solid var(--line);padding:.3rem .5rem;text-align:left;vertical-align:top}th{background:var(--head);font-weight:600}\n",
    );
}

fn put_lanes<K: Sink>(pen: &mut Pen, out: &mut K)
    ensures { Writes (at (K.told out.old) (K.faults out.old) pen.old) (at (K.told out.new) (K.faults out.new) pen.new) spec.lanes }
{
    put_three(
        pen,
        out,
        b".n{white-space:nowrap}td.text{min-width:9rem}.f{min-width:7rem}.m{min-width:16rem}.m p{margin:0}\n",
        b".bits{table-layout:fixed;min-width:38rem;font-size:.75rem}.bits th,.bits td{text-align:center;padding:.25rem .1rem;overflow-wrap:anywhere;line-height:1.25}\n",
        b".bits tr>:first-child{width:3.25rem}.bits th{font-weight:400;color:var(--soft)}.bits .z{color:var(--soft)}.bits td:not(.z){font-weight:600}\n",
    );
}

fn put_paper<K: Sink>(pen: &mut Pen, out: &mut K)
    ensures { Writes (at (K.told out.old) (K.faults out.old) pen.old) (at (K.told out.new) (K.faults out.new) pen.new) spec.paper }
{
    put_three(
        pen,
        out,
        b"@page{margin:14mm}\n",
        b"@media print{:root{--ink:#000;--soft:#333;--paper:#fff;--line:#888;--head:#eee;--link:#000}body{font-size:9.5pt;max-width:none;padding:0}\n",
        b"a{text-decoration:none}.wide{overflow:visible}.bits,.f,.m,td.text{min-width:0}h2,h3,caption,.at{break-after:avoid}tr,.bits{break-inside:avoid}}\n",
    );
}

/// Writes the style.
pub(crate) fn put_style<K: Sink>(pen: &mut Pen, out: &mut K)
    ensures { Writes (at (K.told out.old) (K.faults out.old) pen.old) (at (K.told out.new) (K.faults out.new) pen.new) spec.style }
{
    put_colours(pen, out);
    put_headings(pen, out);
    put_texts(pen, out);
    put_cells(pen, out);
    put_lanes(pen, out);
    put_paper(pen, out);
}
