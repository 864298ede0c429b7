//! Tokens one after the other, and a fault that stays.
use rb_base::Place;
use std::test::Fail;
use v_lexer::VLexer;
use v_syntax::VKind;

// What a text begins with: the kind, the bytes and the place of each token.
#[test]
fn an_assignment_is_read(rt: HostRuntime) -> Result<(), Fail> {
    let mut lexer = VLexer::new(b"a <= 4'hF");
    let expected = [
        (VKind::Id, &b"a"[..], 0),
        (VKind::Mark, &b"<="[..], 2),
        (
            VKind::Const {
                width: 4,
                value: 15,
            },
            &b"4'hF"[..],
            5,
        ),
    ];
    for (kind, text, place) in expected {
        let Ok(Some(token)) = lexer.next() else {
            return Err(Fail::new("a token"));
        };
        assert_eq!(rt;
            (token.kind, token.text, token.place),
            (kind, text, Place(place))
        );
    }
    assert_eq!(rt; matches!(lexer.next(), Ok(None)), true);
    Ok(())
}

#[test]
fn a_fault_is_answered_again(rt: HostRuntime) {
    let mut lexer = VLexer::new(b"4'h1F");
    for _ in 0..2 {
        let fault = lexer.next().err();
        assert_eq!(rt; fault.map(|f| f.place), Some(Place(0)));
    }
}
