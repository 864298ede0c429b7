//! Constant expressions.
use rb_base::Place;
use rdl_base::{Fault, Rule};
use rdl_tree::{Bound, EntryValue, EnumValues, Env, Expr, Name, Op, PType, Path, Step, Value};
use rdl_values::{EnumTable, Table, Visible, as_type, eval, eval_in, number_of, start_of};
use std::rc::Rc;
use std::test::Fail;

const NOTHING: Env<'static> = Env {
    bound: &[],
    enums: &[],
    outer: None,
};

fn name(text: &'static [u8], place: u32) -> Name<'static> {
    Name {
        text,
        place: Place(place),
    }
}

// A number as it is, a boolean as 0 or 1, and a string as its length.
fn shown(answer: Result<Value, Fault>) -> Result<u64, Fault> {
    match answer? {
        Value::Number(n) => Ok(n),
        Value::Flag(b) => Ok(u64::from(b)),
        Value::Str(s) => Ok(s.len() as u64),
    }
}

fn fault(rule: Rule, place: u32) -> Result<u64, Fault> {
    Err(Fault {
        place: Place(place),
        rule,
    })
}

#[test]
fn operators(rt: HostRuntime) {
    let table = [
        (Op::Add, 7, 2, Ok(9)),
        (Op::Sub, 7, 2, Ok(5)),
        (Op::Mul, 7, 2, Ok(14)),
        (Op::Div, 7, 2, Ok(3)),
        (Op::Rem, 7, 2, Ok(1)),
        (Op::Pow, 7, 2, Ok(49)),
        (Op::Shl, 7, 2, Ok(28)),
        (Op::Shr, 7, 2, Ok(1)),
        (Op::And, 6, 3, Ok(2)),
        (Op::Or, 6, 3, Ok(7)),
        (Op::Xor, 6, 3, Ok(5)),
        (Op::Lt, 2, 7, Ok(1)),
        (Op::Ge, 2, 7, Ok(0)),
        (Op::Ne, 2, 7, Ok(1)),
        (Op::AndAlso, 2, 7, Ok(1)),
        (Op::OrElse, 0, 0, Ok(0)),
        (Op::Pow, 0, 0, Ok(1)),
        (Op::Pow, 1, u64::MAX, Ok(1)),
        (Op::Pow, 2, 64, fault(Rule::V3, 5)),
        (Op::Shl, 0, u64::MAX, Ok(0)),
        (Op::Shr, u64::MAX, 64, Ok(0)),
        (Op::Add, u64::MAX, 1, fault(Rule::V3, 5)),
        (Op::Sub, 2, 7, fault(Rule::V3, 5)),
        (Op::Div, 7, 0, fault(Rule::V4, 5)),
    ];
    for (op, m, n, expected) in table {
        let left = Expr::Number(m, Place(0));
        let right = Expr::Number(n, Place(9));
        let answer = eval(&Expr::Binary(op, &left, &right, Place(5)), &NOTHING);
        assert_eq!(rt; shown(answer), expected, "{op:?} of {m} and {n}");
    }
}

const ZERO: Expr<'static> = Expr::Number(0, Place(4));

const ONE: Expr<'static> = Expr::Number(1, Place(2));

const YES: Expr<'static> = Expr::Flag(true, Place(6));

const TEXT: Expr<'static> = Expr::Str(b"abc", Place(8));

const FAILING: Expr<'static> = Expr::Binary(Op::Div, &ONE, &ZERO, Place(3));

#[test]
fn types(rt: HostRuntime) {
    let table = [
        (
            Expr::Binary(Op::Eq, &YES, &ONE, Place(7)),
            fault(Rule::V2, 7),
        ),
        (Expr::Binary(Op::Eq, &TEXT, &TEXT, Place(7)), Ok(1)),
        (Expr::Binary(Op::Add, &YES, &ONE, Place(7)), Ok(2)),
        (
            Expr::Binary(Op::Add, &TEXT, &ONE, Place(7)),
            fault(Rule::V2, 7),
        ),
        (
            Expr::Binary(Op::Add, &TEXT, &FAILING, Place(7)),
            fault(Rule::V4, 3),
        ),
        (Expr::Not(&ZERO, Place(7)), Ok(1)),
        (Expr::Not(&TEXT, Place(7)), fault(Rule::V2, 7)),
        (Expr::Pick(&ZERO, &FAILING, &TEXT, Place(7)), Ok(3)),
        (
            Expr::Pick(&TEXT, &FAILING, &ONE, Place(7)),
            fault(Rule::V2, 7),
        ),
    ];
    for (expr, expected) in table {
        assert_eq!(rt; shown(eval(&expr, &NOTHING)), expected);
    }
}

#[test]
fn wanted_types(rt: HostRuntime) {
    assert_eq!(rt; number_of(&YES, &NOTHING), Ok(1));
    assert_eq!(rt; number_of(&TEXT, &NOTHING), fault(Rule::V2, 8));
    assert_eq!(rt; start_of(&FAILING), Place(2));
    let two = as_type(PType::Flag, &Value::Number(2));
    assert!(rt; matches!(two, Some(Value::Flag(true))));
}

const OUTER: Env<'static> = Env {
    bound: &[
        Bound {
            name: Name {
                text: b"W",
                place: Place(3),
            },
            value: Value::Number(8),
        },
        Bound {
            name: Name {
                text: b"D",
                place: Place(6),
            },
            value: Value::Number(16),
        },
    ],
    enums: &[EnumValues {
        name: Name {
            text: b"mode_t",
            place: Place(20),
        },
        entries: &[EntryValue {
            name: Name {
                text: b"FAST",
                place: Place(30),
            },
            value: 3,
        }],
    }],
    outer: None,
};

const INNER: Env<'static> = Env {
    bound: &[Bound {
        name: Name {
            text: b"W",
            place: Place(40),
        },
        value: Value::Number(4),
    }],
    enums: &[],
    outer: Some(&OUTER),
};

const WIDTH: Path<'static> = Path {
    steps: &[Step {
        name: Name {
            text: b"W",
            place: Place(60),
        },
        index: &[],
    }],
};

const DEPTH: Path<'static> = Path {
    steps: &[Step {
        name: Name {
            text: b"D",
            place: Place(60),
        },
        index: &[],
    }],
};

const UNKNOWN: Path<'static> = Path {
    steps: &[Step {
        name: Name {
            text: b"X",
            place: Place(60),
        },
        index: &[],
    }],
};

#[test]
fn names(rt: HostRuntime) {
    let table = [
        (Expr::EntryOf(name(b"mode_t", 50), name(b"FAST", 58)), Ok(3)),
        (
            Expr::EntryOf(name(b"mode_t", 50), name(b"SLOW", 58)),
            fault(Rule::V1, 58),
        ),
        (
            Expr::EntryOf(name(b"mode_t", 10), name(b"FAST", 18)),
            fault(Rule::V1, 10),
        ),
    ];
    for (expr, expected) in table {
        assert_eq!(rt; shown(eval(&expr, &INNER)), expected);
    }
    for (path, expected) in [
        (WIDTH, Ok(4)),
        (DEPTH, Ok(16)),
        (UNKNOWN, fault(Rule::V1, 60)),
    ] {
        assert_eq!(rt; shown(eval(&Expr::Ref(path, None), &INNER)), expected);
        let item = Some(name(b"reset", 63));
        assert_eq!(rt;
            shown(eval(&Expr::Ref(path, item), &INNER)),
            fault(Rule::V1, 60)
        );
    }
}

// What an expression gives in bodies that have tables, inside `OUTER`.
fn in_tables<'s>(tables: &'s [&'s Table<'static>], expr: &Expr<'static>) -> Result<u64, Fault> {
    let visible = Visible {
        tables,
        listed: Some(&OUTER),
    };
    shown(eval_in(expr, &visible))
}

#[test]
fn tables(rt: HostRuntime) -> Result<(), Fail> {
    let mut modes = EnumTable::new(rt.alloc(), name(b"mode_t", 20));
    modes.add(b"FAST", 7)?;
    modes.add(b"FAST", 5)?;
    let mut body = Table::new(rt.alloc());
    body.add(b"W", Value::Number(4))?;
    body.add(b"W", Value::Number(9))?;
    body.add_enum(Rc::new(rt.alloc(), modes)?)?;
    let mut held = Vec::new(rt.alloc());
    held.push(&body)?;
    let table = [
        (Expr::Ref(WIDTH, None), Ok(4)),
        (Expr::Ref(DEPTH, None), Ok(16)),
        (Expr::Ref(UNKNOWN, None), fault(Rule::V1, 60)),
        (Expr::EntryOf(name(b"mode_t", 50), name(b"FAST", 58)), Ok(7)),
        (
            Expr::EntryOf(name(b"mode_t", 50), name(b"SLOW", 58)),
            fault(Rule::V1, 58),
        ),
        (
            Expr::EntryOf(name(b"mode_t", 10), name(b"FAST", 18)),
            fault(Rule::V1, 10),
        ),
    ];
    for (expr, expected) in table {
        assert_eq!(rt; in_tables(&held, &expr), expected);
    }
    Ok(())
}
