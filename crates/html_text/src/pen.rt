//! Bytes put on a page, where a failure is kept and told at the end.

ghost use Rattle.std.specs.Prelude.{◌≡◌, ◌++◌, false, true, [], IsErr};
ghost use Rattle.rb_edge.specs.Flows.{Flows};
ghost use Rattle.html_text.specs.Writing.{Writes, at};

use rb_base::Text;
use rb_edge::{Failed, Page, Sink};

/// A page, and whether the sink behind it failed, after which nothing is written any more.
#[derive(Drop)]
pub struct Pen {
    page: Page,
    failed: bool,
}

/// A pen with an empty page.
pub fn new_pen() -> Pen
    ensures page { result.page ≡ [] }
    ensures failed { result.failed ≡ false }
{
    Pen {
        page: Page::new(),
        failed: false,
    }
}

/// Puts bytes behind those that wait.
pub fn put<K: Sink>(pen: &mut Pen, out: &mut K, bytes: &[u8])
    ensures { Writes (at (K.told out.old) (K.faults out.old) pen.old) (at (K.told out.new) (K.faults out.new) pen.new) bytes.now }
{
    if !pen.failed {
        pen.failed = pen.page.put(out, bytes).is_err();
    }
}

/// Puts a text.
pub fn put_text<K: Sink>(pen: &mut Pen, out: &mut K, text: &Text)
    ensures { Writes (at (K.told out.old) (K.faults out.old) pen.old) (at (K.told out.new) (K.faults out.new) pen.new) text.now }
{
    put(pen, out, &text.bytes);
}

/// Puts three pieces.
pub fn put_three<K: Sink>(pen: &mut Pen, out: &mut K, first: &[u8], second: &[u8], third: &[u8])
    ensures { Writes (at (K.told out.old) (K.faults out.old) pen.old) (at (K.told out.new) (K.faults out.new) pen.new) (first.now ++ second.now ++ third.now) }
{
    put(pen, out, first);
    put(pen, out, second);
    put(pen, out, third);
}

/// Writes what waits, and tells of a failure.
pub fn finish<K: Sink>(pen: &mut Pen, out: &mut K) -> Result<(), Failed>
    ensures told { pen.old.failed ≡ false → Flows (K.told out.old) (K.told out.new) (K.faults out.old) (K.faults out.new) pen.old.page pen.new.page result [] }
    ensures empty { pen.old.failed ≡ false → pen.new.page ≡ [] }
    ensures stopped { pen.old.failed ≡ true → IsErr result × (out.new ≡ out.old) }
{
    if pen.failed {
        return Err(Failed);
    }
    pen.page.flush(out)
}
