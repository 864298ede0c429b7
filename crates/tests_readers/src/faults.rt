//! Names, drivers, widths and loops at fault.
ghost use Rattle.std.specs.Prelude.{◌≡◌, ◌∷◌, [], IfOk, map};
ghost use Rattle.v_syntax.specs.Syntax.{AreStatements, IsSyntax};
ghost use Rattle.tests_readers.specs.Sample.{sample, sample_tokens};

use rb_base::{Dir, Place, Port, Text};
use std::alloc::{AllocError, Global};
use std::test::Fail;
use v_check::check;
use v_design::{Stmt, VExpr};
use v_syntax::{Event, Parsed, VClass, VSpot};

fn text(alloc: Global, bytes: &[u8]) -> Result<Text, AllocError>
    ensures { IfOk result (λ t. t ≡ bytes.now) }
{
    let bytes = Vec::from_slice(alloc, bytes)?;
    Ok(Text { bytes })
}

fn ports(alloc: Global) -> Result<Vec<Port>, AllocError>
    ensures { IfOk result (λ r. r.items ≡ sample.ports) }
{
    let mut ports = Vec::new(alloc);
    ports.push(Port {
        dir: Dir::In,
        name: text(alloc, b"a")?,
        width: 1,
    })?;
    ports.push(Port {
        dir: Dir::Out,
        name: text(alloc, b"b")?,
        width: 1,
    })?;
    Ok(ports)
}

fn stmts(alloc: Global) -> Result<Vec<Stmt>, AllocError>
    ensures stmts { IfOk result (λ r. AreStatements r.items (Event.None ∷ []) sample.stmts) }
    ensures places { IfOk result (λ r. map (λ s. s.place.0) r.items ≡ 27 ∷ []) }
{
    let mut stmts = Vec::new(alloc);
    stmts.push(Stmt {
        to: text(alloc, b"b")?,
        clocked: false,
        reset: None,
        expr: VExpr::Net(text(alloc, b"a")?),
        place: Place(27),
    })?;
    Ok(stmts)
}

/// The parts of a module with one assignment.
fn parsed(alloc: Global) -> Result<Parsed<'static>, AllocError>
    ensures { IfOk result (λ x. IsSyntax sample_tokens x sample) }
{
    let mut events = Vec::new(alloc);
    events.push(Event::None)?;
    let mut declared = Vec::new(alloc);
    declared.push(Place(15))?;
    declared.push(Place(24))?;
    Ok(Parsed {
        name: b"m",
        ports: ports(alloc)?,
        decls: Vec::new(alloc),
        stmts: stmts(alloc)?,
        events,
        declared,
        before: 10,
    })
}

#[test]
fn a_sound_module_passes(rt: HostRuntime) -> Result<(), Fail> {
    let alloc = rt.alloc();
    let parsed = parsed(alloc)?;
    let tokens = [
        VSpot {
            place: Place(0),
            len: 6,
            class: VClass::Word,
        },
        VSpot {
            place: Place(7),
            len: 1,
            class: VClass::Id,
        },
        VSpot {
            place: Place(8),
            len: 1,
            class: VClass::Mark,
        },
        VSpot {
            place: Place(9),
            len: 5,
            class: VClass::Word,
        },
        VSpot {
            place: Place(15),
            len: 1,
            class: VClass::Id,
        },
        VSpot {
            place: Place(16),
            len: 1,
            class: VClass::Mark,
        },
        VSpot {
            place: Place(17),
            len: 6,
            class: VClass::Word,
        },
        VSpot {
            place: Place(24),
            len: 1,
            class: VClass::Id,
        },
        VSpot {
            place: Place(25),
            len: 1,
            class: VClass::Mark,
        },
        VSpot {
            place: Place(26),
            len: 1,
            class: VClass::Mark,
        },
        VSpot {
            place: Place(27),
            len: 6,
            class: VClass::Word,
        },
        VSpot {
            place: Place(34),
            len: 1,
            class: VClass::Id,
        },
        VSpot {
            place: Place(35),
            len: 1,
            class: VClass::Mark,
        },
        VSpot {
            place: Place(36),
            len: 1,
            class: VClass::Id,
        },
        VSpot {
            place: Place(37),
            len: 1,
            class: VClass::Mark,
        },
        VSpot {
            place: Place(38),
            len: 9,
            class: VClass::Word,
        },
    ];
    assert!(rt;
        check(
            alloc,
            b"module m(input a,output b);assign b=a;endmodule",
            &tokens,
            &parsed
        )
        .is_ok()
    );
    Ok(())
}
