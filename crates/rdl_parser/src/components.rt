//! Components and the items of a source (SystemRDL 2.0, annex B).

ghost use Rattle.std.specs.Prelude.{◌≡◌, ◌<◌, ◌*◌, ◌+◌, ℕ, Err, Some, None, true, false, List, [], ◌∷◌, length, IfOk, OnOk, MatchBool};
ghost use Rattle.rb_grammar.specs.Forms.{Non, Opt, Many, ◌then◌, StopsAt};
ghost use Rattle.rb_grammar.specs.Readings.{at, Same, Stops};
ghost use Rattle.rdl_base.specs.declared.keyword.Keyword as keyword;
ghost use Rattle.rdl_base.specs.declared.keyword.Keyword.TheVariants as words;
ghost use Rattle.rdl_tree.specs.declared.token.Mark.TheVariants as marks;
ghost use Rattle.rdl_tree.specs.declared.token.Terminal.TheVariants as terminals;
ghost use Rattle.rdl_tree.specs.declared.token.Token as token;
ghost use Rattle.rdl_tree.specs.Grammar.{grammar, mark, word};
ghost use Rattle.rdl_tree.specs.Grammar as rules;
ghost use Rattle.rdl_tree.specs.Tree.{IsWord, IsName, SkipsInternal, DerivesAlias, DerivesBody, DerivesItem, DerivesItems, kind_of};
ghost use Rattle.rdl_parser.specs.ItemForms.{alias, assigned, assignment, of_type, instances, named_or_bare, behind_internal, simple_item, item_behind_name, role, EndsDef};
ghost use Rattle.rdl_expressions.specs.Following.{Adds, more_steps, is_kind};

use crate::instances::{inst_list, insts, no_arguments, no_parameters, params};
use crate::properties::{enumeration, local, set, set_from};
use bumpalo::Bump;
use bumpalo::collections::into_bump_slice;
use rb_base::Place;
use rb_grammar::Stop;
use rdl_base::Keyword;
use rdl_expressions::{Parser, Run, Sort, add};
use rdl_tree::{Def, Insts, Item, Kind, Mark, Name, Terminal, TokenKind};

/// What an item is that begins with a name.
#[derive(Clone, Copy)]
pub enum Role {
    Made,
    Local,
    Dynamic,
}

// What a component is.
fn kind_of(word: Keyword) -> Kind
    requires { is_kind word ≡ true }
    ensures { kind_of word ≡ Some result }
{
    match word {
        Keyword::Addrmap => Kind::Addrmap,
        Keyword::Regfile => Kind::Regfile,
        Keyword::Reg => Kind::Reg,
        Keyword::Field => Kind::Field,
        _ => Kind::Signal,
    }
}

// No token is left.
fn is_done<'t, 'a>(parser: &Parser<'t, 'a>) -> bool
    ensures { MatchBool result (parser.now ≡ []) (0 < length parser.now) }
{
    parser.rest.is_empty()
}

// The next token is of the terminal.
fn is_at<'t, 'a>(parser: &Parser<'t, 'a>, terminal: Terminal) -> bool
    ensures { result ≡ at grammar terminal parser.now }
{
    match parser.rest.first() {
        Some(token) => token.token().is(terminal),
        None => false,
    }
}

// What the item is of which the name has been taken.
fn next_role<'t, 'a>(parser: &Parser<'t, 'a>) -> Role
    ensures { result ≡ role parser.now }
{
    let Some(token) = parser.rest.first() else {
        return Role::Made;
    };
    match token.token().kind {
        TokenKind::Mark(Mark::Equals | Mark::Semicolon) => Role::Local,
        TokenKind::Mark(Mark::OpenBracket | Mark::Dot | Mark::Arrow) => Role::Dynamic,
        _ => Role::Made,
    }
}

// [ "internal" ] .
fn skip_internal<'t, 'a>(parser: &mut Parser<'t, 'a>)
    ensures tree { SkipsInternal parser.old parser.new }
    ensures reads { Same grammar (terminals.Reserved words.Internal ∷ []) (Opt (word words.Internal) ∷ []) parser.old [] parser.new }
{
    let _ = parser.word(Keyword::Internal);
}

// [ "alias" name ] .
fn alias<'t, 'a>(parser: &mut Parser<'t, 'a>) -> Result<Option<Name<'a>>, Stop>
    ensures tree { IfOk result (DerivesAlias parser.old parser.new) }
    ensures reads { OnOk result (Same grammar (terminals.Reserved words.Alias ∷ []) (alias ∷ []) parser.old [] parser.new) }
    ensures stops { result ≡ Err Stop.Syntax → Stops grammar (terminals.Reserved words.Alias ∷ []) (alias ∷ []) parser.old parser.new }
{
    let Some(_) = parser.word(Keyword::Alias) else {
        return Ok(None);
    };
    let name = parser.expect_name()?;
    Ok(Some(name))
}

// [ "alias" name ] name insts ";" .
fn made<'t, 'a>(parser: &mut Parser<'t, 'a>) -> Result<Item<'a>, Stop>
    ensures tree { (ts : List token.Token) → SkipsInternal ts parser.old → IfOk result (DerivesItem ts parser.new) }
    ensures shorter { OnOk result (length parser.new < length parser.old) }
    ensures reads { OnOk result (Same grammar [] (alias ∷ of_type ∷ []) parser.old [] parser.new) }
    ensures stops { result ≡ Err Stop.Syntax → Stops grammar [] (alias ∷ of_type ∷ []) parser.old parser.new }
{
    let alias = alias(parser)?;
    let of = parser.expect_name()?;
    made_from(parser, alias, of)
}

// What follows the name of a type: insts ";" .
fn made_from<'t, 'a>(
    parser: &mut Parser<'t, 'a>,
    alias: Option<Name<'a>>,
    of: Name<'a>,
) -> Result<Item<'a>, Stop>
    ensures tree { (ts us vs : List token.Token) → SkipsInternal ts us → DerivesAlias us vs alias.entry → IsName vs parser.old of.entry → IfOk result (DerivesItem ts parser.new) }
    ensures shorter { OnOk result (length parser.new < length parser.old) }
    ensures reads { OnOk result (Same grammar [] (Non rules.Insts ∷ mark marks.Semicolon ∷ []) parser.old [] parser.new) }
    ensures stops { result ≡ Err Stop.Syntax → Stops grammar [] (Non rules.Insts ∷ mark marks.Semicolon ∷ []) parser.old parser.new }
{
    let insts = insts(parser)?;
    let _end = parser.expect(Mark::Semicolon)?;
    Ok(Item::Made { alias, of, insts })
}

// A local assignment behind its name.
fn local_from<'t, 'a>(parser: &mut Parser<'t, 'a>, name: Name<'a>) -> Result<Item<'a>, Stop>
    ensures tree { (ts : List token.Token) → IsName ts parser.old name.entry → IfOk result (DerivesItem ts parser.new) }
    ensures shorter { OnOk result (length parser.new < length parser.old) }
    ensures reads { OnOk result (Same grammar [] (assigned ∷ mark marks.Semicolon ∷ []) parser.old [] parser.new) }
    ensures stops { result ≡ Err Stop.Syntax → Stops grammar [] (assigned ∷ mark marks.Semicolon ∷ []) parser.old parser.new }
{
    match set_from(parser, name, name.place) {
        Ok(set) => Ok(Item::Local(set)),
        Err(stop) => Err(stop),
    }
}

// An assignment to an instance below, behind the first name of its path.
fn dynamic_from<'t, 'a>(parser: &mut Parser<'t, 'a>, name: Name<'a>) -> Result<Item<'a>, Stop>
    ensures tree { (ts : List token.Token) → IsName ts parser.old name.entry → IfOk result (DerivesItem ts parser.new) }
    ensures shorter { OnOk result (length parser.new < length parser.old) }
    ensures reads { OnOk result (Same grammar [] (Many (Non rules.Index) ∷ more_steps ∷ assignment ∷ []) parser.old [] parser.new) }
    ensures stops { result ≡ Err Stop.Syntax → Stops grammar [] (Many (Non rules.Index) ∷ more_steps ∷ assignment ∷ []) parser.old parser.new }
{
    let target = parser.path_from(name)?;
    let _arrow = parser.expect(Mark::Arrow)?;
    let prop = parser.prop()?;
    match set_from(parser, prop, name.place) {
        Ok(set) => Ok(Item::Dynamic { target, set }),
        Err(stop) => Err(stop),
    }
}

// What follows the name that an item begins with.
fn item_from<'t, 'a>(parser: &mut Parser<'t, 'a>, name: Name<'a>) -> Result<Item<'a>, Stop>
    ensures tree { (ts : List token.Token) → IsName ts parser.old name.entry → IfOk result (DerivesItem ts parser.new) }
    ensures shorter { OnOk result (length parser.new < length parser.old) }
    ensures reads { OnOk result (Same grammar [] (item_behind_name ∷ []) parser.old [] parser.new) }
    ensures stops { result ≡ Err Stop.Syntax → Stops grammar [] (item_behind_name ∷ []) parser.old parser.new }
{
    match next_role(parser) {
        Role::Made => made_from(parser, None, name),
        Role::Local => local_from(parser, name),
        Role::Dynamic => dynamic_from(parser, name),
    }
}

// A default, behind its word at this place.
fn default_at<'t, 'a>(parser: &mut Parser<'t, 'a>, place: Place) -> Result<Item<'a>, Stop>
    ensures tree { (t : token.Token) (ts : List token.Token) → IsWord words.Default ts t parser.old → place ≡ t.place → IfOk result (DerivesItem ts parser.new) }
    ensures shorter { OnOk result (length parser.new < length parser.old) }
    ensures reads { OnOk result (Same grammar [] (Non rules.Local ∷ []) parser.old [] parser.new) }
    ensures stops { result ≡ Err Stop.Syntax → Stops grammar [] (Non rules.Local ∷ []) parser.old parser.new }
{
    match local(parser, place) {
        Ok(set) => Ok(Item::Default(set)),
        Err(stop) => Err(stop),
    }
}

// A local assignment.
fn local_item<'t, 'a>(parser: &mut Parser<'t, 'a>) -> Result<Item<'a>, Stop>
    ensures tree { IfOk result (DerivesItem parser.old parser.new) }
    ensures shorter { OnOk result (length parser.new < length parser.old) }
    ensures reads { OnOk result (Same grammar [] (Non rules.Local ∷ []) parser.old [] parser.new) }
    ensures stops { result ≡ Err Stop.Syntax → Stops grammar [] (Non rules.Local ∷ []) parser.old parser.new }
{
    match set(parser) {
        Ok(set) => Ok(Item::Local(set)),
        Err(stop) => Err(stop),
    }
}

// An item that is no component and is not "internal".
fn simple_item<'t, 'a>(parser: &mut Parser<'t, 'a>) -> Result<Item<'a>, Stop>
    requires { at grammar (terminals.Reserved words.Internal) parser.old ≡ false }
    ensures tree { IfOk result (DerivesItem parser.old parser.new) }
    ensures shorter { OnOk result (length parser.new < length parser.old) }
    ensures reads { OnOk result (Same grammar [] (simple_item ∷ []) parser.old [] parser.new) }
    ensures stops { result ≡ Err Stop.Syntax → Stops grammar [] (simple_item ∷ []) parser.old parser.new }
{
    if is_at(parser, Terminal::Reserved(Keyword::Alias)) {
        return made(parser);
    }
    if let Some(_) = parser.word(Keyword::Enum) {
        return enumeration(parser);
    }
    if let Some(token) = parser.word(Keyword::Default) {
        return default_at(parser, token.place);
    }
    if let Some(name) = parser.name() {
        return item_from(parser, name);
    }
    local_item(parser)
}

// [ [ "internal" ] insts ] ";" .
fn end_of_def<'t, 'a>(parser: &mut Parser<'t, 'a>) -> Result<Option<Insts<'a>>, Stop>
    ensures tree { IfOk result (EndsDef parser.old parser.new) }
    ensures reads { OnOk result (Same grammar [] (instances ∷ mark marks.Semicolon ∷ []) parser.old [] parser.new) }
    ensures stops { result ≡ Err Stop.Syntax → Stops grammar [] (instances ∷ mark marks.Semicolon ∷ []) parser.old parser.new }
{
    if let Some(_) = parser.mark(Mark::Semicolon) {
        return Ok(None);
    }
    skip_internal(parser);
    let insts = insts(parser)?;
    let _end = parser.expect(Mark::Semicolon)?;
    Ok(Some(insts))
}

// A component with a name, behind it: [ params ] body [ [ "internal" ] insts ] ";" .
#[cycle(item)]
fn named_def<'t, 'a>(
    parser: &mut Parser<'t, 'a>,
    kind: Kind,
    name: Name<'a>,
) -> Result<Item<'a>, Stop>
    ensures tree { (k : keyword.Keyword) (t : token.Token) (ts us vs : List token.Token) → SkipsInternal ts us → kind_of k ≡ Some kind → IsWord k us t vs → IsName vs parser.old name.entry → IfOk result (DerivesItem ts parser.new) }
    ensures shorter { OnOk result (length parser.new < length parser.old) }
    ensures reads { OnOk result (Same grammar [] (Opt (Non rules.Params) ∷ (Non rules.Body then instances) ∷ mark marks.Semicolon ∷ []) parser.old [] parser.new) }
    ensures stops { result ≡ Err Stop.Syntax → Stops grammar [] (Opt (Non rules.Params) ∷ (Non rules.Body then instances) ∷ mark marks.Semicolon ∷ []) parser.old parser.new }
{
    let params = params(parser)?;
    let items = body(parser)?;
    let insts = end_of_def(parser)?;
    Ok(Item::Def(Def {
        kind,
        name: Some(name),
        params,
        items,
        insts,
        place: name.place,
    }))
}

// A component without a name, behind its kind: body [ "internal" ] instlist ";" .
#[cycle(item)]
fn bare_def<'t, 'a>(parser: &mut Parser<'t, 'a>, kind: Kind, place: Place) -> Result<Item<'a>, Stop>
    ensures tree { (k : keyword.Keyword) (t : token.Token) (ts us : List token.Token) → SkipsInternal ts us → kind_of k ≡ Some kind → IsWord k us t parser.old → place ≡ t.place → IfOk result (DerivesItem ts parser.new) }
    ensures shorter { OnOk result (length parser.new < length parser.old) }
    ensures reads { OnOk result (Same grammar [] (Non rules.Body ∷ (Opt (word words.Internal) then Non rules.InstList) ∷ mark marks.Semicolon ∷ []) parser.old [] parser.new) }
    ensures stops { result ≡ Err Stop.Syntax → Stops grammar [] (Non rules.Body ∷ (Opt (word words.Internal) then Non rules.InstList) ∷ mark marks.Semicolon ∷ []) parser.old parser.new }
{
    let items = body(parser)?;
    skip_internal(parser);
    let list = inst_list(parser)?;
    let _end = parser.expect(Mark::Semicolon)?;
    Ok(Item::Def(Def {
        kind,
        name: None,
        params: no_parameters(),
        items,
        insts: Some(Insts {
            args: no_arguments(),
            list,
        }),
        place,
    }))
}

// A component behind its kind.
#[cycle(item)]
fn def<'t, 'a>(parser: &mut Parser<'t, 'a>, kind: Kind, place: Place) -> Result<Item<'a>, Stop>
    ensures tree { (k : keyword.Keyword) (t : token.Token) (ts us : List token.Token) → SkipsInternal ts us → kind_of k ≡ Some kind → IsWord k us t parser.old → place ≡ t.place → IfOk result (DerivesItem ts parser.new) }
    ensures shorter { OnOk result (length parser.new < length parser.old) }
    ensures reads { OnOk result (Same grammar [] (named_or_bare ∷ mark marks.Semicolon ∷ []) parser.old [] parser.new) }
    ensures stops { result ≡ Err Stop.Syntax → Stops grammar [] (named_or_bare ∷ mark marks.Semicolon ∷ []) parser.old parser.new }
{
    let Some(name) = parser.name() else {
        return bare_def(parser, kind, place);
    };
    named_def(parser, kind, name)
}

// body = "{" { item } "}" .
#[cycle(item)]
fn body<'t, 'a>(parser: &mut Parser<'t, 'a>) -> Result<&'a [Item<'a>], Stop>
    ensures tree { IfOk result (λ is. DerivesBody parser.old parser.new is.now) }
    ensures shorter { OnOk result (length parser.new < length parser.old) }
    ensures reads { OnOk result (Same grammar [] (Non rules.Body ∷ []) parser.old [] parser.new) }
    ensures stops { result ≡ Err Stop.Syntax → Stops grammar [] (Non rules.Body ∷ []) parser.old parser.new }
{
    let _open = parser.expect(Mark::OpenBrace)?;
    let mut items = parser.room(Run::Ended);
    'more: loop {
        if let Some(_) = parser.mark(Mark::CloseBrace) {
            return Ok(into_bump_slice(items));
        }
        add_item(parser, &mut items)?;
    }
}

// Adds an item to those that were read.
#[cycle(item)]
fn add_item<'t, 'a>(
    parser: &mut Parser<'t, 'a>,
    items: &mut Vec<Item<'a>, &'a Bump>,
) -> Result<(), Stop>
    ensures tree { OnOk result (Adds DerivesItem parser.old parser.new items.old.items items.new.items) }
    ensures shorter { OnOk result (length parser.new < length parser.old) }
    ensures reads { OnOk result (Same grammar [] (Non rules.Item ∷ []) parser.old [] parser.new) }
    ensures stops { result ≡ Err Stop.Syntax → Stops grammar [] (Non rules.Item ∷ []) parser.old parser.new }
{
    match item(parser) {
        Ok(item) => add(items, item),
        Err(stop) => Err(stop),
    }
}

// item = component | enum | made | default | local | dynamic .
#[cycle(item)]
fn item<'t, 'a>(parser: &mut Parser<'t, 'a>) -> Result<Item<'a>, Stop>
    ensures tree { IfOk result (DerivesItem parser.old parser.new) }
    ensures shorter { OnOk result (length parser.new < length parser.old) }
    ensures reads { OnOk result (Same grammar [] (Non rules.Item ∷ []) parser.old [] parser.new) }
    ensures stops { result ≡ Err Stop.Syntax → Stops grammar [] (Non rules.Item ∷ []) parser.old parser.new }
{
    if let Some(_) = parser.word(Keyword::Internal) {
        return internal_item(parser);
    }
    let Some((word, token)) = parser.word_of(Sort::Kind) else {
        return simple_item(parser);
    };
    def(parser, kind_of(word), token.place)
}

// What follows "internal".
#[cycle(item)]
fn internal_item<'t, 'a>(parser: &mut Parser<'t, 'a>) -> Result<Item<'a>, Stop>
    ensures tree { (t : token.Token) (ts : List token.Token) → IsWord words.Internal ts t parser.old → IfOk result (DerivesItem ts parser.new) }
    ensures shorter { OnOk result (length parser.new < length parser.old) }
    ensures reads { OnOk result (Same grammar [] (behind_internal ∷ []) parser.old [] parser.new) }
    ensures stops { result ≡ Err Stop.Syntax → Stops grammar [] (behind_internal ∷ []) parser.old parser.new }
{
    let Some((word, token)) = parser.word_of(Sort::Kind) else {
        return made(parser);
    };
    def(parser, kind_of(word), token.place)
}

/// source = { item } .
pub fn source<'t, 'a>(parser: &mut Parser<'t, 'a>) -> Result<&'a [Item<'a>], Stop>
    ensures tree { IfOk result (λ is. DerivesItems parser.old parser.new is.now) }
    ensures whole { OnOk result (parser.new ≡ []) }
    ensures stops { result ≡ Err Stop.Syntax → StopsAt grammar (Non rules.Source) parser.old parser.new }
{
    let mut items = parser.room(Run::Ended);
    'more: while !is_done(parser) {
        add_item(parser, &mut items)?;
    }
    Ok(into_bump_slice(items))
}
