//! Instances and parameters (SystemRDL 2.0, annex B).

ghost use Rattle.std.specs.Prelude.{◌≡◌, Err, Some, true, List, [], ◌∷◌, IfOk, OnOk, option_copied};
ghost use Rattle.rb_grammar.specs.Forms.{Non, Opt, Many, ◌then◌};
ghost use Rattle.rb_grammar.specs.Readings.{Same, Stops};
ghost use Rattle.rdl_tree.specs.declared.token.Mark.TheVariants as marks;
ghost use Rattle.rdl_tree.specs.declared.token.Token as token;
ghost use Rattle.rdl_tree.specs.Grammar.{grammar, mark, behind};
ghost use Rattle.rdl_tree.specs.Grammar as rules;
ghost use Rattle.rdl_tree.specs.Tree.{IsMark, DerivesExpr, DerivesIndices, DerivesBehind, DerivesListed, DerivesHashed, DerivesArg, DerivesInst, DerivesInsts, DerivesType, DerivesParam, type_of};
ghost use Rattle.rdl_parser.specs.ItemForms.{after_args, after_params, after_behind, after_inst, after_insts, after_hashed, shape, DerivesShapeOf};
ghost use Rattle.rdl_expressions.specs.Following.{after_type};
ghost use Rattle.rdl_expressions.specs.Following.{Adds, after_indices, is_type};

use bumpalo::Bump;
use bumpalo::collections::into_bump_slice;
use rb_grammar::Stop;
use rdl_base::Keyword;
use rdl_expressions::{Parser, Run, Sort, add};
use rdl_tree::{Arg, Expr, Inst, Insts, Mark, PType, Param};

/// The dimensions or the range of an instance.
#[derive(Clone, Copy)]
pub struct Shape<'a> {
    pub dims: &'a [Expr<'a>],
    pub range: Option<&'a (Expr<'a>, Expr<'a>)>,
}

// What a parameter is.
fn type_of(word: Keyword) -> PType
    requires { is_type word ≡ true }
    ensures { type_of word ≡ Some result }
{
    match word {
        Keyword::Longint | Keyword::Bit => PType::Number,
        Keyword::Boolean => PType::Flag,
        _ => PType::Str,
    }
}

/// An expression behind the mark, if it is there.
pub fn behind<'t, 'a>(parser: &mut Parser<'t, 'a>, mark: Mark) -> Result<Option<Expr<'a>>, Stop>
    ensures tree { IfOk result (DerivesBehind mark parser.old parser.new) }
    ensures reads { OnOk result (Same grammar (after_behind mark) (Opt (behind mark) ∷ []) parser.old [] parser.new) }
    ensures stops { result ≡ Err Stop.Syntax → Stops grammar (after_behind mark) (Opt (behind mark) ∷ []) parser.old parser.new }
{
    let Some(_) = parser.mark(mark) else {
        return Ok(None);
    };
    let value = parser.expr()?;
    Ok(Some(value))
}

// An expression behind the mark, if it is there, in the arena.
fn lodged_behind<'t, 'a>(
    parser: &mut Parser<'t, 'a>,
    mark: Mark,
) -> Result<Option<&'a Expr<'a>>, Stop>
    ensures tree { IfOk result (λ e. DerivesBehind mark parser.old parser.new (option_copied e)) }
    ensures reads { OnOk result (Same grammar (after_behind mark) (Opt (behind mark) ∷ []) parser.old [] parser.new) }
    ensures stops { result ≡ Err Stop.Syntax → Stops grammar (after_behind mark) (Opt (behind mark) ∷ []) parser.old parser.new }
{
    let Some(value) = behind(parser, mark)? else {
        return Ok(None);
    };
    Ok(Some(parser.lodged(value)?))
}

// The dimensions behind the first: "]" { "[" expr "]" } .
fn dims<'t, 'a>(parser: &mut Parser<'t, 'a>, first: Expr<'a>) -> Result<&'a [Expr<'a>], Stop>
    ensures tree { (t : token.Token) (ts us : List token.Token) → IsMark marks.OpenBracket ts t us → DerivesExpr us parser.old first.entry → IfOk result (λ es. DerivesIndices ts parser.new es.now) }
    ensures reads { OnOk result (Same grammar after_indices (mark marks.CloseBracket ∷ Many (Non rules.Index) ∷ []) parser.old [] parser.new) }
    ensures stops { result ≡ Err Stop.Syntax → Stops grammar after_indices (mark marks.CloseBracket ∷ Many (Non rules.Index) ∷ []) parser.old parser.new }
{
    let _end = parser.expect(Mark::CloseBracket)?;
    let mut dims = parser.room(Run::One);
    add(&mut dims, first)?;
    'more: while let Some(_) = parser.mark(Mark::OpenBracket) {
        parser.add_index(&mut dims)?;
    }
    Ok(into_bump_slice(dims))
}

// No dimensions.
fn no_dims<'a>() -> &'a [Expr<'a>]
    ensures { result.now ≡ [] }
{
    &[]
}

// { "[" expr "]" } | "[" expr ":" expr "]" .
fn inst_shape<'t, 'a>(parser: &mut Parser<'t, 'a>) -> Result<Shape<'a>, Stop>
    ensures tree { IfOk result (DerivesShapeOf parser.old parser.new) }
    ensures reads { OnOk result (Same grammar after_indices (shape ∷ []) parser.old [] parser.new) }
    ensures stops { result ≡ Err Stop.Syntax → Stops grammar after_indices (shape ∷ []) parser.old parser.new }
{
    let none = no_dims();
    let Some(_) = parser.mark(Mark::OpenBracket) else {
        return Ok(Shape {
            dims: none,
            range: None,
        });
    };
    let first = parser.expr()?;
    let Some(_) = parser.mark(Mark::Colon) else {
        let dims = dims(parser, first)?;
        return Ok(Shape { dims, range: None });
    };
    let low = parser.expr()?;
    let _close = parser.expect(Mark::CloseBracket)?;
    let range = parser.lodged((first, low))?;
    Ok(Shape {
        dims: none,
        range: Some(range),
    })
}

// inst = name ( { "[" expr "]" } | "[" expr ":" expr "]" ) [ "=" expr ] [ "@" expr ] [ "+=" expr ] [ "%=" expr ] .
fn inst<'t, 'a>(parser: &mut Parser<'t, 'a>) -> Result<Inst<'a>, Stop>
    ensures tree { IfOk result (DerivesInst parser.old parser.new) }
    ensures reads { OnOk result (Same grammar after_inst (Non rules.Inst ∷ []) parser.old [] parser.new) }
    ensures stops { result ≡ Err Stop.Syntax → Stops grammar after_inst (Non rules.Inst ∷ []) parser.old parser.new }
{
    let name = parser.expect_name()?;
    let shape = inst_shape(parser)?;
    let reset = lodged_behind(parser, Mark::Equals)?;
    let at = lodged_behind(parser, Mark::At)?;
    let stride = lodged_behind(parser, Mark::PlusEquals)?;
    let align = lodged_behind(parser, Mark::PercentEquals)?;
    Ok(Inst {
        name,
        dims: shape.dims,
        range: shape.range,
        reset,
        at,
        stride,
        align,
    })
}

/// instlist = inst { "," inst } .
pub fn inst_list<'t, 'a>(parser: &mut Parser<'t, 'a>) -> Result<&'a [Inst<'a>], Stop>
    ensures tree { IfOk result (λ is. DerivesListed DerivesInst parser.old parser.new is.now) }
    ensures reads { OnOk result (Same grammar after_insts (Non rules.InstList ∷ []) parser.old [] parser.new) }
    ensures stops { result ≡ Err Stop.Syntax → Stops grammar after_insts (Non rules.InstList ∷ []) parser.old parser.new }
{
    let mut list = parser.room(Run::Parted);
    add_inst(parser, &mut list)?;
    'more: while let Some(_) = parser.mark(Mark::Comma) {
        add_inst(parser, &mut list)?;
    }
    Ok(into_bump_slice(list))
}

// Adds an instance to those that were read.
fn add_inst<'t, 'a>(
    parser: &mut Parser<'t, 'a>,
    list: &mut Vec<Inst<'a>, &'a Bump>,
) -> Result<(), Stop>
    ensures tree { OnOk result (Adds DerivesInst parser.old parser.new list.old.items list.new.items) }
    ensures reads { OnOk result (Same grammar after_inst (Non rules.Inst ∷ []) parser.old [] parser.new) }
    ensures stops { result ≡ Err Stop.Syntax → Stops grammar after_inst (Non rules.Inst ∷ []) parser.old parser.new }
{
    match inst(parser) {
        Ok(inst) => add(list, inst),
        Err(stop) => Err(stop),
    }
}

// arg = "." name "(" expr ")" .
fn arg<'t, 'a>(parser: &mut Parser<'t, 'a>) -> Result<Arg<'a>, Stop>
    ensures tree { IfOk result (DerivesArg parser.old parser.new) }
    ensures reads { OnOk result (Same grammar [] (Non rules.Arg ∷ []) parser.old [] parser.new) }
    ensures stops { result ≡ Err Stop.Syntax → Stops grammar [] (Non rules.Arg ∷ []) parser.old parser.new }
{
    let _dot = parser.expect(Mark::Dot)?;
    let name = parser.expect_name()?;
    let _open = parser.expect(Mark::OpenParen)?;
    let value = parser.expr()?;
    let _close = parser.expect(Mark::CloseParen)?;
    Ok(Arg { name, value })
}

/// No arguments.
pub(crate) fn no_arguments<'a>() -> &'a [Arg<'a>]
    ensures { result.now ≡ [] }
{
    &[]
}

// [ "#" "(" arg { "," arg } ")" ] .
fn args<'t, 'a>(parser: &mut Parser<'t, 'a>) -> Result<&'a [Arg<'a>], Stop>
    ensures tree { IfOk result (λ xs. DerivesHashed DerivesArg parser.old parser.new xs.now) }
    ensures reads { OnOk result (Same grammar after_hashed (Opt (Non rules.Args) ∷ []) parser.old [] parser.new) }
    ensures stops { result ≡ Err Stop.Syntax → Stops grammar after_hashed (Opt (Non rules.Args) ∷ []) parser.old parser.new }
{
    let Some(_) = parser.mark(Mark::Hash) else {
        return Ok(no_arguments());
    };
    let _open = parser.expect(Mark::OpenParen)?;
    let args = arg_list(parser)?;
    let _close = parser.expect(Mark::CloseParen)?;
    Ok(args)
}

// arg { "," arg } .
fn arg_list<'t, 'a>(parser: &mut Parser<'t, 'a>) -> Result<&'a [Arg<'a>], Stop>
    ensures tree { IfOk result (λ xs. DerivesListed DerivesArg parser.old parser.new xs.now) }
    ensures reads { OnOk result (Same grammar after_args (Non rules.Arg ∷ Many (mark marks.Comma then Non rules.Arg) ∷ []) parser.old [] parser.new) }
    ensures stops { result ≡ Err Stop.Syntax → Stops grammar after_args (Non rules.Arg ∷ Many (mark marks.Comma then Non rules.Arg) ∷ []) parser.old parser.new }
{
    let mut list = parser.room(Run::Parted);
    add_arg(parser, &mut list)?;
    'more: while let Some(_) = parser.mark(Mark::Comma) {
        add_arg(parser, &mut list)?;
    }
    Ok(into_bump_slice(list))
}

// Adds an argument to those that were read.
fn add_arg<'t, 'a>(
    parser: &mut Parser<'t, 'a>,
    list: &mut Vec<Arg<'a>, &'a Bump>,
) -> Result<(), Stop>
    ensures tree { OnOk result (Adds DerivesArg parser.old parser.new list.old.items list.new.items) }
    ensures reads { OnOk result (Same grammar [] (Non rules.Arg ∷ []) parser.old [] parser.new) }
    ensures stops { result ≡ Err Stop.Syntax → Stops grammar [] (Non rules.Arg ∷ []) parser.old parser.new }
{
    match arg(parser) {
        Ok(arg) => add(list, arg),
        Err(stop) => Err(stop),
    }
}

/// insts = [ args ] instlist .
pub fn insts<'t, 'a>(parser: &mut Parser<'t, 'a>) -> Result<Insts<'a>, Stop>
    ensures tree { IfOk result (DerivesInsts parser.old parser.new) }
    ensures reads { OnOk result (Same grammar after_insts (Non rules.Insts ∷ []) parser.old [] parser.new) }
    ensures stops { result ≡ Err Stop.Syntax → Stops grammar after_insts (Non rules.Insts ∷ []) parser.old parser.new }
{
    let args = args(parser)?;
    let list = inst_list(parser)?;
    Ok(Insts { args, list })
}

// paramtype = ( "longint" | "bit" ) [ "unsigned" ] | "boolean" | "string" .
fn param_type<'t, 'a>(parser: &mut Parser<'t, 'a>) -> Result<PType, Stop>
    ensures tree { IfOk result (DerivesType parser.old parser.new) }
    ensures reads { OnOk result (Same grammar after_type (Non rules.ParamType ∷ []) parser.old [] parser.new) }
    ensures stops { result ≡ Err Stop.Syntax → Stops grammar after_type (Non rules.ParamType ∷ []) parser.old parser.new }
{
    let Some((word, _)) = parser.word_of(Sort::Type) else {
        return Err(Stop::Syntax);
    };
    let ptype = type_of(word);
    let PType::Number = ptype else {
        return Ok(ptype);
    };
    let Some(_) = parser.word(Keyword::Unsigned) else {
        return Ok(PType::Number);
    };
    Ok(PType::Number)
}

// param = paramtype name [ "=" expr ] .
fn param<'t, 'a>(parser: &mut Parser<'t, 'a>) -> Result<Param<'a>, Stop>
    ensures tree { IfOk result (DerivesParam parser.old parser.new) }
    ensures reads { OnOk result (Same grammar (after_behind marks.Equals) (Non rules.Param ∷ []) parser.old [] parser.new) }
    ensures stops { result ≡ Err Stop.Syntax → Stops grammar (after_behind marks.Equals) (Non rules.Param ∷ []) parser.old parser.new }
{
    let ptype = param_type(parser)?;
    let name = parser.expect_name()?;
    let default = behind(parser, Mark::Equals)?;
    Ok(Param {
        name,
        ptype,
        default,
    })
}

/// No parameters.
pub(crate) fn no_parameters<'a>() -> &'a [Param<'a>]
    ensures { result.now ≡ [] }
{
    &[]
}

/// [ "#" "(" param { "," param } ")" ] .
pub fn params<'t, 'a>(parser: &mut Parser<'t, 'a>) -> Result<&'a [Param<'a>], Stop>
    ensures tree { IfOk result (λ xs. DerivesHashed DerivesParam parser.old parser.new xs.now) }
    ensures reads { OnOk result (Same grammar after_hashed (Opt (Non rules.Params) ∷ []) parser.old [] parser.new) }
    ensures stops { result ≡ Err Stop.Syntax → Stops grammar after_hashed (Opt (Non rules.Params) ∷ []) parser.old parser.new }
{
    let Some(_) = parser.mark(Mark::Hash) else {
        return Ok(no_parameters());
    };
    let _open = parser.expect(Mark::OpenParen)?;
    let params = param_list(parser)?;
    let _close = parser.expect(Mark::CloseParen)?;
    Ok(params)
}

// param { "," param } .
fn param_list<'t, 'a>(parser: &mut Parser<'t, 'a>) -> Result<&'a [Param<'a>], Stop>
    ensures tree { IfOk result (λ xs. DerivesListed DerivesParam parser.old parser.new xs.now) }
    ensures reads { OnOk result (Same grammar after_params (Non rules.Param ∷ Many (mark marks.Comma then Non rules.Param) ∷ []) parser.old [] parser.new) }
    ensures stops { result ≡ Err Stop.Syntax → Stops grammar after_params (Non rules.Param ∷ Many (mark marks.Comma then Non rules.Param) ∷ []) parser.old parser.new }
{
    let mut list = parser.room(Run::Parted);
    add_param(parser, &mut list)?;
    'more: while let Some(_) = parser.mark(Mark::Comma) {
        add_param(parser, &mut list)?;
    }
    Ok(into_bump_slice(list))
}

// Adds a parameter to those that were read.
fn add_param<'t, 'a>(
    parser: &mut Parser<'t, 'a>,
    list: &mut Vec<Param<'a>, &'a Bump>,
) -> Result<(), Stop>
    ensures tree { OnOk result (Adds DerivesParam parser.old parser.new list.old.items list.new.items) }
    ensures reads { OnOk result (Same grammar (after_behind marks.Equals) (Non rules.Param ∷ []) parser.old [] parser.new) }
    ensures stops { result ≡ Err Stop.Syntax → Stops grammar (after_behind marks.Equals) (Non rules.Param ∷ []) parser.old parser.new }
{
    match param(parser) {
        Ok(param) => add(list, param),
        Err(stop) => Err(stop),
    }
}
