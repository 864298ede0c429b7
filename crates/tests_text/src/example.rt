//! The example grammar's lexer and parser.
use bumpalo::Bump;
use rb_base::Place;
use rb_grammar_example::{Bound, Fault, LexError, ParseError, Rule, Value, parse, tokens};
use std::test::Fail;

#[test]
fn a_source_is_read(rt: HostRuntime) -> Result<(), Fail> {
    let arena = Bump::new(rt.alloc());
    let tokens = tokens(
        &arena,
        b"one = 1; // a name\nall = [one, 2..3, []];\nit => all;",
    )?;
    assert_eq!(rt; tokens.len(), 21);
    let source = parse(&arena, tokens, Place(52))?;
    let [one, all, it] = source.entries else {
        return Err(Fail::new("three entries"));
    };
    assert_eq!(rt; (one.name.text, one.name.place), (&b"one"[..], Place(0)));
    let Bound::Value(Value::Number(number)) = one.bound else {
        return Err(Fail::new("a number"));
    };
    assert_eq!(rt; number, 1);
    let Bound::Value(Value::List(values)) = all.bound else {
        return Err(Fail::new("a list"));
    };
    assert_eq!(rt; values.len(), 3);
    let Some(Value::Range(first, last)) = values.get(1).copied() else {
        return Err(Fail::new("a range"));
    };
    assert_eq!(rt; (first, last), (2, 3));
    let Bound::Alias(name) = it.bound else {
        return Err(Fail::new("an alias"));
    };
    assert_eq!(rt; (name.text, name.place), (&b"all"[..], Place(48)));
    Ok(())
}

// Why a source is not read.
fn refusal(arena: &Bump, source: &[u8]) -> Result<Option<ParseError>, Fail> {
    let end = Place(u32::try_from(source.len())?);
    let tokens = tokens(arena, source)?;
    Ok(parse(arena, tokens, end).err())
}

#[test]
fn refusals_tell_places(rt: HostRuntime) -> Result<(), Fail> {
    let arena = Bump::new(rt.alloc());
    let at = |place| Some(ParseError::Syntax {
        place: Place(place),
    });
    assert_eq!(rt; refusal(&arena, b"")?, None);
    assert_eq!(rt; refusal(&arena, b"a = ;")?, at(4));
    assert_eq!(rt; refusal(&arena, b"a = [1, ];")?, at(8));
    assert_eq!(rt; refusal(&arena, b"a = 1")?, at(5));
    assert_eq!(rt; refusal(&arena, b"a = 1; 2")?, at(7));
    let mut deep = *b"a = [[[[[[[[[[[[[[[[[[[[[[[[[[[[[[[[[[[[[[[[[[[[[[[[[[[[[[[[[[[[[[[[[[";
    assert_eq!(rt;
        refusal(&arena, &deep)?,
        Some(ParseError::TooDeep { place: Place(68) })
    );
    deep[10] = b'=';
    assert_eq!(rt; refusal(&arena, &deep)?, at(10));
    Ok(())
}

#[test]
fn faults_tell_places(rt: HostRuntime) {
    let arena = Bump::new(rt.alloc());
    let fault = |place, rule| {
        Some(LexError::Fault(Fault {
            place: Place(place),
            rule,
        }))
    };
    assert_eq!(rt; tokens(&arena, b"a = ?").err(), fault(4, Rule::NoLexeme));
    assert_eq!(rt;
        tokens(&arena, b"a /* b").err(),
        fault(2, Rule::OpenComment)
    );
    assert_eq!(rt;
        tokens(&arena, b"18446744073709551616").err(),
        fault(0, Rule::TooLarge)
    );
    assert_eq!(rt; tokens(&arena, b"18446744073709551615").err(), None);
}
