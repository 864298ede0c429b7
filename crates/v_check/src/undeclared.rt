//! Names that are not declared.

ghost use Rattle.std.specs.Prelude.{◌≡◌, List, None, false, true};
ghost use Rattle.v_design.specs.WellFormed.{names};
ghost use Rattle.v_syntax.specs.Tokens.{placed, spotted};
ghost use Rattle.v_check.specs.Found.{Finds, Stands};
ghost use Rattle.v_check.specs.Nets.{AreNets, IsUndeclared, is_unknown as unknown, nets_seen, token_places};
ghost use Rattle.v_check.specs.declared.nets.Net.{Net};

use crate::found::note;
use crate::nets::Table;
use rb_base::Place;
use v_syntax::{VClass, VSpot};

fn is_unknown(table: &Table, bytes: &[u8], token: &VSpot) -> bool
    ensures { (ns : List Net) → AreNets table.now ns → result ≡ unknown (names (nets_seen ns)) (spotted bytes.now token.now).token }
{
    match token.class {
        VClass::Id => !table.declares(token.text(bytes)),
        VClass::Dec | VClass::Const | VClass::Word | VClass::Mark => false,
    }
}

/// The least place of a name that is not declared, among the tokens behind so many.
fn undeclared(table: &Table, bytes: &[u8], tokens: &[VSpot], before: usize) -> Option<Place>
    ensures { (ns : List Net) → AreNets table.now ns
        → Finds (Stands (IsUndeclared (names (nets_seen ns)) before (placed bytes.now tokens.now)) (token_places (placed bytes.now tokens.now))) result }
{
    let mut found = None;
    for (index, token) in tokens.iter().enumerate() {
        let wrong = index >= before && is_unknown(table, bytes, token);
        found = note(found, wrong, token.place);
    }
    found
}

/// The same, or none where each name is seen to be declared.
pub(crate) fn undeclared_yet(
    declared: bool,
    table: &Table,
    bytes: &[u8],
    tokens: &[VSpot],
    before: usize,
) -> Option<Place>
    ensures declared { declared ≡ true → result ≡ None }
    ensures found { declared ≡ false → (ns : List Net) → AreNets table.now ns
        → Finds (Stands (IsUndeclared (names (nets_seen ns)) before (placed bytes.now tokens.now)) (token_places (placed bytes.now tokens.now))) result }
{
    if declared {
        None
    } else {
        undeclared(table, bytes, tokens, before)
    }
}
