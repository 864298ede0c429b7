//! A tree of a source, and how tightly operators bind.
use bumpalo::Bump;
use rb_base::Place;
use rdl_parser::parse;
use rdl_tree::{Expr, Item, Kind, Op};
use std::test::Fail;

const UART: &str = "// Serial port
enum parity_t { NONE = 2'd0; EVEN = 2'd1 { name = \"Even\"; }; };
reg ier_t #(longint unsigned W = 8) { field { sw = rw; hw = r; } en[W] = 0; };
addrmap uart {
  name = \"UART\"; default sw = rw;
  reg { field { encode = parity_t; } parity[1:0] = 0; } ctrl @0x00;
  reg { field { hw = w; posedge intr; woclr; } ev[4] = 0; } isr @0x08;
  internal ier_t #(.W(4)) ier @0x0C, more[2][3] += 1 + 2 * 4 - 4;
  isr.ev->enable = !ier.en | a == b ? parity_t::EVEN : more[0][1]->intr;
};
";

#[test]
fn a_source_is_read(rt: HostRuntime) -> Result<(), Fail> {
    let arena = Bump::new(rt.alloc());
    let source = parse(rt.alloc(), &arena, UART.as_bytes())?;
    assert_eq!(rt; source.items.len(), 3);
    let Some(Item::EnumDef { name, entries }) = source.items.first().copied() else {
        return Err(Fail::new("an enumeration"));
    };
    assert_eq!(rt; (name.text, name.place), (&b"parity_t"[..], Place(20)));
    assert_eq!(rt; entries.len(), 2);
    let Some(Item::Def(uart)) = source.items.last().copied() else {
        return Err(Fail::new("a component"));
    };
    assert_eq!(rt; (uart.kind, uart.items.len()), (Kind::Addrmap, 6));
    let Some(Item::Dynamic { target, set }) = uart.items.last().copied() else {
        return Err(Fail::new("an assignment"));
    };
    assert_eq!(rt; (target.steps.len(), set.prop.text), (2, &b"enable"[..]));
    Ok(())
}

// The operator of an expression, its left operand and its place.
fn operator<'a>(expr: &Expr<'a>) -> Option<(Op, &'a Expr<'a>, Place)> {
    match *expr {
        Expr::Binary(op, left, _, place) => Some((op, left, place)),
        _ => None,
    }
}

// Operators bind as tightly as SystemRDL 2.0 says, from the left.
#[test]
fn operators(rt: HostRuntime) -> Result<(), Fail> {
    let arena = Bump::new(rt.alloc());
    let source = parse(rt.alloc(), &arena, b"a b[1 - 2 * 3 + 4];")?;
    let Some(Item::Made { insts, .. }) = source.items.first().copied() else {
        return Err(Fail::new("an instance"));
    };
    let Some(inst) = insts.list.first().copied() else {
        return Err(Fail::new("an instance"));
    };
    let Some((last, left, place)) = inst.dims.first().and_then(|e| operator(e)) else {
        return Err(Fail::new("a sum"));
    };
    assert_eq!(rt; (last, place), (Op::Add, Place(14)));
    let Some((first, _, _)) = operator(left) else {
        return Err(Fail::new("a difference"));
    };
    assert_eq!(rt; first, Op::Sub);
    Ok(())
}
