//! Effects in words.

ghost use Rattle.std.specs.Prelude.{◌≡◌, ◌<◌, ◌++◌, codes, flat_map};
ghost use Rattle.manual_words.specs.Names.{pin_name};
ghost use Rattle.manual_words.specs.Sentences as spec;
ghost use Rattle.html_text.specs.Writing.{Writes, at};
ghost use Rattle.rb_model.specs.Ports.{shown_word as word_of};

use crate::names::{
    Sight, put_feed, put_field_at, put_item, put_pin, put_pin_name, put_signal_item,
};
use block_effects::Effect;
use html_text::{Pen, put, put_decimal, put_hex, put_small, put_three};
use rb_base::Trigger;
use rb_edge::Sink;
use rb_model::{
    Amount, Feed, Gate, Latch, Level, Mask, OnRead, OnWrite, Part, RefItem, ResetBy, Shown,
};

fn write_words(on_write: OnWrite) -> &'static [u8]
    ensures { result.now ≡ spec.write_words on_write }
{
    match on_write {
        OnWrite::Off => b"A write stores its bits.",
        OnWrite::WoSet => b"A written 1 sets its bit.",
        OnWrite::WoClr => b"A written 1 clears its bit.",
        OnWrite::WoT => b"A written 1 inverts its bit.",
        OnWrite::WzS => b"A written 0 sets its bit.",
        OnWrite::WzC => b"A written 0 clears its bit.",
        OnWrite::WzT => b"A written 0 inverts its bit.",
        OnWrite::WClr => b"Any write clears all bits.",
        OnWrite::WSet => b"Any write sets all bits.",
    }
}

fn read_words(on_read: OnRead) -> &'static [u8]
    ensures { result.now ≡ spec.read_words on_read }
{
    match on_read {
        OnRead::Off => b"A read changes nothing.",
        OnRead::RClr => b"A read clears all bits.",
        OnRead::RSet => b"A read sets all bits.",
    }
}

fn event_words(event: Trigger) -> &'static [u8]
    ensures { result.now ≡ spec.event_words event }
{
    match event {
        Trigger::Level => b"while its input is 1",
        Trigger::Posedge => b"at a rising edge of its input",
        Trigger::Negedge => b"at a falling edge of its input",
        Trigger::Bothedge => b"at any edge of its input",
        Trigger::Nonsticky => b"while its input is 1",
    }
}

fn put_write_words<K: Sink>(pen: &mut Pen, out: &mut K, on_write: OnWrite)
    ensures { Writes (at (K.told out.old) (K.faults out.old) pen.old) (at (K.told out.new) (K.faults out.new) pen.new) (spec.write_words on_write) }
{
    put(pen, out, write_words(on_write));
}

fn put_read_words<K: Sink>(pen: &mut Pen, out: &mut K, on_read: OnRead)
    ensures { Writes (at (K.told out.old) (K.faults out.old) pen.old) (at (K.told out.new) (K.faults out.new) pen.new) (spec.read_words on_read) }
{
    put(pen, out, read_words(on_read));
}

fn put_event_words<K: Sink>(pen: &mut Pen, out: &mut K, event: Trigger)
    ensures { Writes (at (K.told out.old) (K.faults out.old) pen.old) (at (K.told out.new) (K.faults out.new) pen.new) (spec.event_words event) }
{
    put(pen, out, event_words(event));
}

fn put_event<K: Sink>(pen: &mut Pen, out: &mut K, event: Trigger, end: &[u8])
    ensures { Writes (at (K.told out.old) (K.faults out.old) pen.old) (at (K.told out.new) (K.faults out.new) pen.new) (spec.event_text event end.now) }
{
    put(pen, out, b"Interrupt: a bit is set ");
    put_event_words(pen, out, event);
    put(pen, out, end);
}

fn put_latch<K: Sink>(pen: &mut Pen, out: &mut K, latch: Latch)
    ensures { Writes (at (K.told out.old) (K.faults out.old) pen.old) (at (K.told out.new) (K.faults out.new) pen.new) (spec.latch_words latch) }
{
    match latch {
        Latch::Off => put(pen, out, b"No interrupt."),
        Latch::Bits(event) => put_event(pen, out, event, b"."),
        Latch::Whole(event) => put_event(
            pen,
            out,
            event,
            b", and further ones not until all are cleared.",
        ),
        Latch::Plain => put(pen, out, b"Interrupt: it keeps no event."),
    }
}

fn put_while<K: Sink>(
    pen: &mut Pen,
    out: &mut K,
    sight: &Sight<'_>,
    from: Feed,
    role: &[u8],
    path: &[u8],
    end: &[u8],
)
    ensures { Writes (at (K.told out.old) (K.faults out.old) pen.old) (at (K.told out.new) (K.faults out.new) pen.new) (spec.gated sight.now from role.now path.now end.now) }
{
    put(pen, out, b"while ");
    put_feed(pen, out, sight, from, role, path);
    put(pen, out, end);
}

fn put_gate<K: Sink>(
    pen: &mut Pen,
    out: &mut K,
    sight: &Sight<'_>,
    gate: Gate,
    high: &[u8],
    low: &[u8],
    path: &[u8],
)
    ensures { Writes (at (K.told out.old) (K.faults out.old) pen.old) (at (K.told out.new) (K.faults out.new) pen.new) (spec.gate_text sight.now gate high.now low.now path.now) }
{
    match gate {
        Gate::Always => put(pen, out, b"always"),
        Gate::High(from) => put_while(pen, out, sight, from, high, path, b" is 1"),
        Gate::Low(from) => put_while(pen, out, sight, from, low, path, b" is 0"),
    }
}

fn put_with_item<K: Sink>(
    pen: &mut Pen,
    out: &mut K,
    sight: &Sight<'_>,
    before: &[u8],
    item: RefItem,
)
    ensures { Writes (at (K.told out.old) (K.faults out.old) pen.old) (at (K.told out.new) (K.faults out.new) pen.new) (spec.with_item sight.now before.now item) }
{
    put(pen, out, before);
    put_item(pen, out, sight, item);
}

fn put_mask<K: Sink>(pen: &mut Pen, out: &mut K, sight: &Sight<'_>, mask: Mask)
    ensures { Writes (at (K.told out.old) (K.faults out.old) pen.old) (at (K.told out.new) (K.faults out.new) pen.new) (spec.mask_text sight.now mask) }
{
    match mask {
        Mask::Off => put(pen, out, b"All bits"),
        Mask::Enable(item) => put_with_item(pen, out, sight, b"Bits that are 1 in ", item),
        Mask::Mask(item) => put_with_item(pen, out, sight, b"Bits that are 0 in ", item),
    }
}

fn put_level<K: Sink>(pen: &mut Pen, out: &mut K, sight: &Sight<'_>, level: Level)
    ensures { Writes (at (K.told out.old) (K.faults out.old) pen.old) (at (K.told out.new) (K.faults out.new) pen.new) (spec.level_text sight.now level) }
{
    match level {
        Level::Number(number) => put_hex(pen, out, number),
        Level::Item(item) => put_item(pen, out, sight, item),
    }
}

fn put_amount<K: Sink>(
    pen: &mut Pen,
    out: &mut K,
    sight: &Sight<'_>,
    amount: Amount,
    role: &[u8],
    path: &[u8],
)
    ensures { Writes (at (K.told out.old) (K.faults out.old) pen.old) (at (K.told out.new) (K.faults out.new) pen.new) (spec.amount_text sight.now amount role.now path.now) }
{
    match amount {
        Amount::Number(number) => put_decimal(pen, out, number),
        Amount::Item(item) => put_item(pen, out, sight, item),
        Amount::Pin(_) => put_pin(pen, out, sight, role, path),
    }
}

fn put_count<K: Sink>(
    pen: &mut Pen,
    out: &mut K,
    sight: &Sight<'_>,
    part: Part,
    way: &[u8],
    pulse: &[u8],
    by: &[u8],
    path: &[u8],
)
    ensures { Writes (at (K.told out.old) (K.faults out.old) pen.old) (at (K.told out.new) (K.faults out.new) pen.new) (spec.count_text sight.now part way.now pulse.now by.now path.now) }
{
    put_three(pen, out, b"Counts ", way, b" by ");
    put_amount(pen, out, sight, part.amount, by, path);
    put(pen, out, b" in each cycle in which ");
    put_feed(pen, out, sight, part.pulse, pulse, path);
    put(pen, out, b" is 1.");
}

fn level_words(low: bool) -> &'static [u8]
    ensures { result.now ≡ spec.level_words low }
{
    if low { b"low" } else { b"high" }
}

fn edge_words(sync: bool) -> &'static [u8]
    ensures { result.now ≡ spec.edge_words sync }
{
    if sync {
        b"synchronous"
    } else {
        b"asynchronous"
    }
}

fn put_reset_signal<K: Sink>(pen: &mut Pen, out: &mut K, sight: &Sight<'_>, signal: Option<u32>)
    ensures { Writes (at (K.told out.old) (K.faults out.old) pen.old) (at (K.told out.new) (K.faults out.new) pen.new) (spec.reset_signal sight.now signal) }
{
    match signal {
        None => put(pen, out, b"<code>PRESETn</code>"),
        Some(number) => put_signal_item(pen, out, sight, number),
    }
}

fn put_kinds<K: Sink>(pen: &mut Pen, out: &mut K, low: bool, sync: bool)
    ensures { Writes (at (K.told out.old) (K.faults out.old) pen.old) (at (K.told out.new) (K.faults out.new) pen.new) (spec.kinds_text low sync) }
{
    put_three(pen, out, level_words(low), b", ", edge_words(sync));
}

fn put_reset<K: Sink>(pen: &mut Pen, out: &mut K, sight: &Sight<'_>, reset: ResetBy)
    ensures { Writes (at (K.told out.old) (K.faults out.old) pen.old) (at (K.told out.new) (K.faults out.new) pen.new) (spec.reset_text sight.now reset) }
{
    put(pen, out, b"Reset by ");
    put_reset_signal(pen, out, sight, reset.signal);
    put(pen, out, b", ");
    put_kinds(pen, out, reset.low, reset.sync);
    put(pen, out, b".");
}

fn shown_word(shown: Shown) -> &'static [u8]
    ensures { result.now ≡ word_of shown }
{
    match shown {
        Shown::Anded => b"anded$",
        Shown::Ored => b"ored$",
        Shown::Xored => b"xored$",
        Shown::IncrThreshold => b"incrthreshold$",
        Shown::DecrThreshold => b"decrthreshold$",
        Shown::Overflow => b"overflow$",
        Shown::Underflow => b"underflow$",
        Shown::SwMod => b"swmod$",
        Shown::SwAcc => b"swacc$",
    }
}

fn put_bits<K: Sink>(pen: &mut Pen, out: &mut K, high: u8, low: u8, width: u8)
    ensures { Writes (at (K.told out.old) (K.faults out.old) pen.old) (at (K.told out.new) (K.faults out.new) pen.new) (spec.bits_text high low width) }
{
    put(pen, out, b"Bits ");
    put_small(pen, out, high);
    put(pen, out, b" to ");
    put_small(pen, out, low);
    put(pen, out, b" of the field&#39;s ");
    put_small(pen, out, width);
    put(pen, out, b".");
}

fn put_about<K: Sink>(pen: &mut Pen, out: &mut K, sight: &Sight<'_>, before: &[u8], item: RefItem)
    ensures { Writes (at (K.told out.old) (K.faults out.old) pen.old) (at (K.told out.new) (K.faults out.new) pen.new) (spec.about_text sight.now before.now item) }
{
    put(pen, out, before);
    put_item(pen, out, sight, item);
    put(pen, out, b".");
}

fn put_view_of<K: Sink>(pen: &mut Pen, out: &mut K, sight: &Sight<'_>, number: u32)
    ensures { Writes (at (K.told out.old) (K.faults out.old) pen.old) (at (K.told out.new) (K.faults out.new) pen.new) (spec.view_text sight.now number) }
{
    put(pen, out, b"Another view of ");
    put_field_at(pen, out, sight, number);
    put(pen, out, b".");
}

fn put_gated<K: Sink>(
    pen: &mut Pen,
    out: &mut K,
    sight: &Sight<'_>,
    before: &[u8],
    gate: Gate,
    high: &[u8],
    low: &[u8],
    path: &[u8],
)
    ensures { Writes (at (K.told out.old) (K.faults out.old) pen.old) (at (K.told out.new) (K.faults out.new) pen.new) (spec.gated_text sight.now before.now gate high.now low.now path.now) }
{
    put(pen, out, before);
    put_gate(pen, out, sight, gate, high, low, path);
    put(pen, out, b".");
}

fn put_at_level<K: Sink>(pen: &mut Pen, out: &mut K, sight: &Sight<'_>, before: &[u8], level: Level)
    ensures { Writes (at (K.told out.old) (K.faults out.old) pen.old) (at (K.told out.new) (K.faults out.new) pen.new) (spec.at_level_text sight.now before.now level) }
{
    put(pen, out, before);
    put_level(pen, out, sight, level);
    put(pen, out, b".");
}

fn put_while_one<K: Sink>(
    pen: &mut Pen,
    out: &mut K,
    sight: &Sight<'_>,
    before: &[u8],
    from: Feed,
    role: &[u8],
    path: &[u8],
)
    ensures { Writes (at (K.told out.old) (K.faults out.old) pen.old) (at (K.told out.new) (K.faults out.new) pen.new) (spec.while_text sight.now before.now from role.now path.now) }
{
    put(pen, out, before);
    put_feed(pen, out, sight, from, role, path);
    put(pen, out, b" is 1.");
}

fn put_masked<K: Sink>(pen: &mut Pen, out: &mut K, sight: &Sight<'_>, mask: Mask, behind: &[u8])
    ensures { Writes (at (K.told out.old) (K.faults out.old) pen.old) (at (K.told out.new) (K.faults out.new) pen.new) (spec.masked_text sight.now mask behind.now) }
{
    put_mask(pen, out, sight, mask);
    put(pen, out, behind);
}

fn put_shown_pin<K: Sink>(pen: &mut Pen, out: &mut K, sight: &Sight<'_>, shown: Shown, path: &[u8])
    ensures { Writes (at (K.told out.old) (K.faults out.old) pen.old) (at (K.told out.new) (K.faults out.new) pen.new) (pin_name sight.now (word_of shown) path.now) }
{
    put_pin_name(pen, out, sight, shown_word(shown), path);
}

fn put_output<K: Sink>(pen: &mut Pen, out: &mut K, sight: &Sight<'_>, shown: Shown, path: &[u8])
    ensures { Writes (at (K.told out.old) (K.faults out.old) pen.old) (at (K.told out.new) (K.faults out.new) pen.new) (spec.output_text sight.now shown path.now) }
{
    put(pen, out, b"Output ");
    put_shown_pin(pen, out, sight, shown, path);
    put(pen, out, b".");
}

/// Writes what a field of the path `f` does, behind a view of the path `v`.
fn put_sentence<K: Sink>(
    pen: &mut Pen,
    out: &mut K,
    sight: &Sight<'_>,
    f: &[u8],
    v: &[u8],
    effect: Effect,
)
    ensures { Writes (at (K.told out.old) (K.faults out.old) pen.old) (at (K.told out.new) (K.faults out.new) pen.new) (spec.sentence sight.now f.now v.now effect) }
{
    match effect {
        Effect::Bits(high, low, width) => put_bits(pen, out, high, low, width),
        Effect::Once => put(
            pen,
            out,
            b"Written once after a reset; later writes have no effect.",
        ),
        Effect::Writes(on_write) => put_write_words(pen, out, on_write),
        Effect::Reads(on_read) => put_read_words(pen, out, on_read),
        Effect::WritesWhile(g) => put_gated(
            pen,
            out,
            sight,
            b"Writes act ",
            g,
            b"swwe$",
            b"swwel$",
            v,
        ),
        Effect::ViewOf(k) => put_view_of(pen, out, sight, k),
        Effect::Pulse => put(
            pen,
            out,
            b"Single pulse: a written 1 lasts one clock cycle.",
        ),
        Effect::Latches(latch) => put_latch(pen, out, latch),
        Effect::HasInput(i) => put_about(pen, out, sight, b"Its input is ", i),
        Effect::Takes(i) => put_about(pen, out, sight, b"Takes the value of ", i),
        Effect::IsWire => put(pen, out, b"Not stored: a read gives its input."),
        Effect::Loads => put(pen, out, b"Loaded at every clock edge."),
        Effect::LoadsWhile(g) => put_gated(pen, out, sight, b"Loaded ", g, b"we$", b"wel$", f),
        Effect::CountsUp(p) => put_count(pen, out, sight, p, b"up", b"incr$", b"incrvalue$", f),
        Effect::StopsUp(l) => put_at_level(pen, out, sight, b"Counting up stops at ", l),
        Effect::WrapsUp => put(pen, out, b"Counting up wraps at its width."),
        Effect::CountsDown(p) => put_count(pen, out, sight, p, b"down", b"decr$", b"decrvalue$", f),
        Effect::StopsDown(l) => put_at_level(pen, out, sight, b"Counting down stops at ", l),
        Effect::WrapsDown => put(pen, out, b"Counting down wraps at 0."),
        Effect::UpperThreshold(l) => put_at_level(pen, out, sight, b"Upper threshold ", l),
        Effect::LowerThreshold(l) => put_at_level(pen, out, sight, b"Lower threshold ", l),
        Effect::SetWhile(x) => put_while_one(
            pen,
            out,
            sight,
            b"All bits are set while ",
            x,
            b"hwset$",
            f,
        ),
        Effect::ClearedWhile(x) => put_while_one(
            pen,
            out,
            sight,
            b"All bits are cleared while ",
            x,
            b"hwclr$",
            f,
        ),
        Effect::Keeps(m) => put_masked(pen, out, sight, m, b" are those that hardware changes."),
        Effect::Interrupts(m) => put_masked(
            pen,
            out,
            sight,
            m,
            b" count for the interrupt output.",
        ),
        Effect::AllInterrupt => put(pen, out, b"All bits count for the interrupt output."),
        Effect::Halts(m) => put_masked(pen, out, sight, m, b" count for the halt output."),
        Effect::HardwareFirst => put(pen, out, b"Hardware wins over software at one clock edge."),
        Effect::IsConstant => put(pen, out, b"Constant."),
        Effect::Shows(shown) => put_output(pen, out, sight, shown, f),
        Effect::ResetBy(reset) => put_reset(pen, out, sight, reset),
    }
}

fn put_point<K: Sink>(
    pen: &mut Pen,
    out: &mut K,
    sight: &Sight<'_>,
    f: &[u8],
    v: &[u8],
    effect: Effect,
)
    ensures { Writes (at (K.told out.old) (K.faults out.old) pen.old) (at (K.told out.new) (K.faults out.new) pen.new) (spec.point sight.now f.now v.now effect) }
{
    put(pen, out, b"<li>");
    put_sentence(pen, out, sight, f, v, effect);
    put(pen, out, b"</li>");
}

fn put_each<K: Sink>(
    pen: &mut Pen,
    out: &mut K,
    sight: &Sight<'_>,
    f: &[u8],
    v: &[u8],
    effects: &[Effect],
)
    ensures { Writes (at (K.told out.old) (K.faults out.old) pen.old) (at (K.told out.new) (K.faults out.new) pen.new) (flat_map (spec.point sight.now f.now v.now) effects.now) }
{
    let mut rest = effects;
    while let [effect, more @ ..] = rest {
        put_point(pen, out, sight, f, v, *effect);
        rest = more;
    }
}

fn put_list<K: Sink>(
    pen: &mut Pen,
    out: &mut K,
    sight: &Sight<'_>,
    f: &[u8],
    v: &[u8],
    effects: &[Effect],
)
    ensures { Writes (at (K.told out.old) (K.faults out.old) pen.old) (at (K.told out.new) (K.faults out.new) pen.new) (spec.listed sight.now f.now v.now effects.now) }
{
    put(pen, out, b"<ul>");
    put_each(pen, out, sight, f, v, effects);
    put(pen, out, b"</ul>");
}

/// Writes effects as a list, or nothing.
#[tactic(auto, using(html_text::proofs::Wrote::nothing))]
pub fn put_points<K: Sink>(
    pen: &mut Pen,
    out: &mut K,
    sight: &Sight<'_>,
    f: &[u8],
    v: &[u8],
    effects: &[Effect],
)
    ensures { Writes (at (K.told out.old) (K.faults out.old) pen.old) (at (K.told out.new) (K.faults out.new) pen.new) (spec.points sight.now f.now v.now effects.now) }
{
    if !effects.is_empty() {
        put_list(pen, out, sight, f, v, effects);
    }
}
