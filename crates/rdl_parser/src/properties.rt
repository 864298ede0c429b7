//! Properties and enumerations (SystemRDL 2.0, annex B).

ghost use Rattle.std.specs.Prelude.{◌≡◌, ◌<◌, Err, Some, true, List, [], ◌∷◌, length, IfOk, OnOk, MatchOption};
ghost use Rattle.rb_grammar.specs.Forms.{Non, Many, ◌then◌};
ghost use Rattle.rb_grammar.specs.Readings.{Same, Stops};
ghost use Rattle.rdl_base.specs.declared.keyword.Keyword.TheVariants as words;
ghost use Rattle.rdl_tree.specs.declared.token.Mark.TheVariants as marks;
ghost use Rattle.rdl_tree.specs.declared.token.Token as token;
ghost use Rattle.rdl_tree.specs.Grammar.{grammar, mark};
ghost use Rattle.rdl_tree.specs.Grammar as rules;
ghost use Rattle.rdl_tree.specs.Tree.{IsWord, StartsAt, DerivesGiven, DerivesAssigned, DerivesLocal, DerivesSet, DerivesSets, DerivesEntry, DerivesItem, trigger_of};
ghost use Rattle.rdl_parser.specs.ItemForms.{after_behind, after_sets, assigned, sets, rest_of_enum, Sets, DerivesEntries};
ghost use Rattle.rdl_expressions.specs.Following.{Adds, after_expr, is_trigger};

use crate::instances::behind;
use bumpalo::Bump;
use bumpalo::collections::into_bump_slice;
use rb_base::{Place, Trigger};
use rb_grammar::Stop;
use rdl_base::Keyword;
use rdl_expressions::{Parser, Run, Sort, add};
use rdl_tree::{Assigned, Entry, Item, Mark, Name, Set};

// What stands before a property.
fn trigger_of(word: Keyword) -> Trigger
    requires { is_trigger word ≡ true }
    ensures { trigger_of word ≡ Some result }
{
    match word {
        Keyword::Posedge => Trigger::Posedge,
        Keyword::Negedge => Trigger::Negedge,
        Keyword::Bothedge => Trigger::Bothedge,
        Keyword::Level => Trigger::Level,
        _ => Trigger::Nonsticky,
    }
}

// given = expr | a word .
fn given<'t, 'a>(parser: &mut Parser<'t, 'a>) -> Result<Assigned<'a>, Stop>
    ensures tree { IfOk result (DerivesGiven parser.old parser.new) }
    ensures reads { OnOk result (Same grammar after_expr (Non rules.Given ∷ []) parser.old [] parser.new) }
    ensures stops { result ≡ Err Stop.Syntax → Stops grammar after_expr (Non rules.Given ∷ []) parser.old parser.new }
{
    if let Some((word, _)) = parser.word_of(Sort::Value) {
        return Ok(Assigned::Word(word));
    }
    let value = parser.expr()?;
    Ok(Assigned::Expr(value))
}

// [ "=" given ] .
fn assigned<'t, 'a>(parser: &mut Parser<'t, 'a>) -> Result<Option<Assigned<'a>>, Stop>
    ensures tree { IfOk result (DerivesAssigned parser.old parser.new) }
    ensures reads { OnOk result (Same grammar (after_behind marks.Equals) (assigned ∷ []) parser.old [] parser.new) }
    ensures stops { result ≡ Err Stop.Syntax → Stops grammar (after_behind marks.Equals) (assigned ∷ []) parser.old parser.new }
{
    let Some(_) = parser.mark(Mark::Equals) else {
        return Ok(None);
    };
    let given = given(parser)?;
    Ok(Some(given))
}

/// The assignment of a property, behind its name: [ "=" given ] ";" .
pub fn set_from<'t, 'a>(
    parser: &mut Parser<'t, 'a>,
    prop: Name<'a>,
    place: Place,
) -> Result<Set<'a>, Stop>
    ensures tree { IfOk result (Sets prop.entry place parser.old parser.new) }
    ensures shorter { OnOk result (length parser.new < length parser.old) }
    ensures reads { OnOk result (Same grammar [] (assigned ∷ mark marks.Semicolon ∷ []) parser.old [] parser.new) }
    ensures stops { result ≡ Err Stop.Syntax → Stops grammar [] (assigned ∷ mark marks.Semicolon ∷ []) parser.old parser.new }
{
    let value = assigned(parser)?;
    let _end = parser.expect(Mark::Semicolon)?;
    Ok(Set {
        prop,
        trigger: None,
        value,
        place,
    })
}

/// local = prop [ "=" given ] ";" | trigger prop ";" .
pub fn local<'t, 'a>(parser: &mut Parser<'t, 'a>, place: Place) -> Result<Set<'a>, Stop>
    ensures tree { IfOk result (DerivesLocal place parser.old parser.new) }
    ensures place { IfOk result (λ s. s.place ≡ place) }
    ensures shorter { OnOk result (length parser.new < length parser.old) }
    ensures reads { OnOk result (Same grammar [] (Non rules.Local ∷ []) parser.old [] parser.new) }
    ensures stops { result ≡ Err Stop.Syntax → Stops grammar [] (Non rules.Local ∷ []) parser.old parser.new }
{
    if let Some((word, _)) = parser.word_of(Sort::Trigger) {
        let prop = parser.prop()?;
        let _end = parser.expect(Mark::Semicolon)?;
        return Ok(Set {
            prop,
            trigger: Some(trigger_of(word)),
            value: None,
            place,
        });
    }
    let prop = parser.prop()?;
    set_from(parser, prop, place)
}

// The place of the next token.
fn place<'t, 'a>(parser: &Parser<'t, 'a>) -> Option<Place>
    ensures { MatchOption result (parser.now ≡ []) (StartsAt parser.now) }
{
    let first = parser.rest.first()?;
    Some(first.token().place)
}

/// A local assignment at the place where it begins.
pub fn set<'t, 'a>(parser: &mut Parser<'t, 'a>) -> Result<Set<'a>, Stop>
    ensures tree { IfOk result (DerivesSet parser.old parser.new) }
    ensures shorter { OnOk result (length parser.new < length parser.old) }
    ensures reads { OnOk result (Same grammar [] (Non rules.Local ∷ []) parser.old [] parser.new) }
    ensures stops { result ≡ Err Stop.Syntax → Stops grammar [] (Non rules.Local ∷ []) parser.old parser.new }
{
    let Some(place) = place(parser) else {
        return Err(Stop::Syntax);
    };
    local(parser, place)
}

// No assignments.
fn no_sets<'a>() -> &'a [Set<'a>]
    ensures { result.now ≡ [] }
{
    &[]
}

// [ "{" { local } "}" ] .
fn sets<'t, 'a>(parser: &mut Parser<'t, 'a>) -> Result<&'a [Set<'a>], Stop>
    ensures tree { IfOk result (λ ss. DerivesSets parser.old parser.new ss.now) }
    ensures reads { OnOk result (Same grammar after_sets (sets ∷ []) parser.old [] parser.new) }
    ensures stops { result ≡ Err Stop.Syntax → Stops grammar after_sets (sets ∷ []) parser.old parser.new }
{
    let Some(_) = parser.mark(Mark::OpenBrace) else {
        return Ok(no_sets());
    };
    let mut sets = parser.room(Run::Ended);
    'more: loop {
        if let Some(_) = parser.mark(Mark::CloseBrace) {
            return Ok(into_bump_slice(sets));
        }
        add_set(parser, &mut sets)?;
    }
}

// Adds an assignment to those that were read.
fn add_set<'t, 'a>(
    parser: &mut Parser<'t, 'a>,
    sets: &mut Vec<Set<'a>, &'a Bump>,
) -> Result<(), Stop>
    ensures tree { OnOk result (Adds DerivesSet parser.old parser.new sets.old.items sets.new.items) }
    ensures shorter { OnOk result (length parser.new < length parser.old) }
    ensures reads { OnOk result (Same grammar [] (Non rules.Local ∷ []) parser.old [] parser.new) }
    ensures stops { result ≡ Err Stop.Syntax → Stops grammar [] (Non rules.Local ∷ []) parser.old parser.new }
{
    match set(parser) {
        Ok(set) => add(sets, set),
        Err(stop) => Err(stop),
    }
}

// entry = name [ "=" expr ] [ "{" { local } "}" ] ";" .
fn entry<'t, 'a>(parser: &mut Parser<'t, 'a>) -> Result<Entry<'a>, Stop>
    ensures tree { IfOk result (DerivesEntry parser.old parser.new) }
    ensures shorter { OnOk result (length parser.new < length parser.old) }
    ensures reads { OnOk result (Same grammar [] (Non rules.Entry ∷ []) parser.old [] parser.new) }
    ensures stops { result ≡ Err Stop.Syntax → Stops grammar [] (Non rules.Entry ∷ []) parser.old parser.new }
{
    let name = parser.expect_name()?;
    let value = behind(parser, Mark::Equals)?;
    let sets = sets(parser)?;
    let _end = parser.expect(Mark::Semicolon)?;
    Ok(Entry { name, value, sets })
}

/// What follows "enum": name "{" { entry } "}" ";" .
pub fn enumeration<'t, 'a>(parser: &mut Parser<'t, 'a>) -> Result<Item<'a>, Stop>
    ensures tree { (t : token.Token) (ts : List token.Token) → IsWord words.Enum ts t parser.old → IfOk result (DerivesItem ts parser.new) }
    ensures shorter { OnOk result (length parser.new < length parser.old) }
    ensures reads { OnOk result (Same grammar [] (rest_of_enum ∷ []) parser.old [] parser.new) }
    ensures stops { result ≡ Err Stop.Syntax → Stops grammar [] (rest_of_enum ∷ []) parser.old parser.new }
{
    let name = parser.expect_name()?;
    let _open = parser.expect(Mark::OpenBrace)?;
    match entries(parser) {
        Ok(entries) => Ok(Item::EnumDef { name, entries }),
        Err(stop) => Err(stop),
    }
}

// { entry } "}" ";" .
fn entries<'t, 'a>(parser: &mut Parser<'t, 'a>) -> Result<&'a [Entry<'a>], Stop>
    ensures tree { IfOk result (λ es. DerivesEntries parser.old parser.new es.now) }
    ensures shorter { OnOk result (length parser.new < length parser.old) }
    ensures reads { OnOk result (Same grammar [] (Many (Non rules.Entry) ∷ (mark marks.CloseBrace then mark marks.Semicolon) ∷ []) parser.old [] parser.new) }
    ensures stops { result ≡ Err Stop.Syntax → Stops grammar [] (Many (Non rules.Entry) ∷ (mark marks.CloseBrace then mark marks.Semicolon) ∷ []) parser.old parser.new }
{
    let mut entries = parser.room(Run::Ended);
    'more: loop {
        if let Some(_) = parser.mark(Mark::CloseBrace) {
            let _end = parser.expect(Mark::Semicolon)?;
            return Ok(into_bump_slice(entries));
        }
        add_entry(parser, &mut entries)?;
    }
}

// Adds an entry to those that were read.
fn add_entry<'t, 'a>(
    parser: &mut Parser<'t, 'a>,
    entries: &mut Vec<Entry<'a>, &'a Bump>,
) -> Result<(), Stop>
    ensures tree { OnOk result (Adds DerivesEntry parser.old parser.new entries.old.items entries.new.items) }
    ensures shorter { OnOk result (length parser.new < length parser.old) }
    ensures reads { OnOk result (Same grammar [] (Non rules.Entry ∷ []) parser.old [] parser.new) }
    ensures stops { result ≡ Err Stop.Syntax → Stops grammar [] (Non rules.Entry ∷ []) parser.old parser.new }
{
    match entry(parser) {
        Ok(entry) => add(entries, entry),
        Err(stop) => Err(stop),
    }
}
