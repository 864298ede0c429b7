//! A tree of tokens.
use std::test::Fail;
use v_design::VExpr;
use v_lexer::tokens;
use v_parser::parse;
use v_syntax::Event;

#[test]
fn a_module_is_read(rt: HostRuntime) -> Result<(), Fail> {
    let source = "module M ( input PCLK , input [ 3 : 0 ] A , output Y ) ; \
        wire W ; reg [ 3 : 0 ] R ; assign W = A == R ; \
        assign Y = ~ ( W ? A [ 0 ] : { 4'h5 , R [ 300 : 2 ] } ) ; \
        always @ ( posedge PCLK ) R <= A ; \
        always @ ( posedge PCLK or negedge N ) if ( ! T ) R <= 4'h5 ; else Q <= R + A ; endmodule"
        .as_bytes();
    let scanned = tokens(rt.alloc(), source)?;
    let module = parse(rt.alloc(), source, &scanned.tokens)?;
    assert_eq!(rt; module.name, &b"M"[..]);
    let widths = [1, 4, 1];
    assert_eq!(rt; module.ports.len(), 3);
    for (port, width) in module.ports.iter().zip(widths) {
        assert_eq!(rt; port.width, width);
    }
    assert_eq!(rt; module.decls.iter().filter(|d| d.reg).count(), 1);
    assert_eq!(rt; module.before, 29);
    let places = [17, 40, 51, 62, 80];
    assert_eq!(rt; module.declared.len(), 5);
    for (declared, place) in module.declared.iter().zip(places) {
        assert_eq!(rt; declared.0, place);
    }
    let [_, inverted, _, block] = module.stmts.as_slice() else {
        return Err(Fail::new("four statements"));
    };
    let VExpr::One(_, picked) = &inverted.expr else {
        return Err(Fail::new("an operator"));
    };
    let VExpr::Pick(_, chosen, other) = &**picked else {
        return Err(Fail::new("a condition"));
    };
    assert_eq!(rt; matches!(&**chosen, VExpr::Bits(_, 0, 0)), true);
    let VExpr::Cat(parts) = &**other else {
        return Err(Fail::new("a concatenation"));
    };
    assert_eq!(rt;
        matches!(
            parts.as_slice(),
            [VExpr::Const(4, 5), VExpr::Bits(_, 255, 2)]
        ),
        true
    );
    let Some(reset) = &block.reset else {
        return Err(Fail::new("a reset"));
    };
    assert_eq!(rt; (reset.low, reset.width, reset.value), (true, 4, 5));
    let Some(
        Event::Reset {
            negated,
            test,
            again,
            ..
        },
    ) = module.events.last().copied()
    else {
        return Err(Fail::new("the event of a reset"));
    };
    assert_eq!(rt; (negated, test, again), (true, &b"T"[..], &b"Q"[..]));
    Ok(())
}
