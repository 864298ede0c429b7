//! Expressions and paths (SystemRDL 2.0, annex B).

ghost use Rattle.std.specs.Prelude.{◌≡◌, ℕ, Err, ◌*◌, ◌+◌, ◌<◌, ◌≤◌, List, [], ◌∷◌, length, IfOk, IfErr, OnOk, MatchOption};
ghost use Rattle.rb_grammar.specs.Forms.{Non, Many, ◌then◌};
ghost use Rattle.rb_grammar.specs.Readings.{Misses, Same, Stops};
ghost use Rattle.rdl_tree.specs.declared.token.Token as token;
ghost use Rattle.rdl_tree.specs.declared.token.Mark.TheVariants as marks;
ghost use Rattle.rdl_tree.specs.Grammar.{grammar, mark};
ghost use Rattle.rdl_tree.specs.Grammar as rules;
ghost use Rattle.rdl_tree.specs.Tree.{IsMark, IsName, DerivesProp, DerivesExpr, DerivesBinary, DerivesPrefix, DerivesPrimary, DerivesPath, DerivesIndices, operator_of, level};
ghost use Rattle.rdl_expressions.specs.Following.{after_indices, after_path, after_primary, after_binary, after_expr, operands, more_steps, brackets_or_name, flag_or_other, behind_name, Adds, AddsStep, ClosesIndex, IsPair, IsPick, TakesOperator, IsLooser};

use crate::parser::{Parser, Sort, add};
use crate::rooms::Run;
use bumpalo::Bump;
use bumpalo::collections::into_bump_slice;
use rb_base::Place;
use rb_grammar::Stop;
use rdl_base::Keyword;
use rdl_lexer::CompactToken;
use rdl_tree::{Expr, Mark, Name, Op, Path, Step, Terminal, TokenKind};

// The operator of a mark.
fn operator_of(mark: Mark) -> Option<Op>
    ensures { result ≡ operator_of mark }
{
    match mark {
        Mark::OrOr => Some(Op::OrElse),
        Mark::AndAnd => Some(Op::AndAlso),
        Mark::Or => Some(Op::Or),
        Mark::Caret => Some(Op::Xor),
        Mark::And => Some(Op::And),
        Mark::EqualEqual => Some(Op::Eq),
        Mark::NotEqual => Some(Op::Ne),
        Mark::Less => Some(Op::Lt),
        Mark::LessEqual => Some(Op::Le),
        Mark::Greater => Some(Op::Gt),
        Mark::GreaterEqual => Some(Op::Ge),
        Mark::ShiftLeft => Some(Op::Shl),
        Mark::ShiftRight => Some(Op::Shr),
        Mark::Plus => Some(Op::Add),
        Mark::Minus => Some(Op::Sub),
        Mark::Star => Some(Op::Mul),
        Mark::Slash => Some(Op::Div),
        Mark::Percent => Some(Op::Rem),
        Mark::StarStar => Some(Op::Pow),
        _ => None,
    }
}

// How tightly an operator binds.
fn level(op: Op) -> u8
    ensures is { result ≡ level op }
    ensures most { result ≤ 10 }
{
    match op {
        Op::OrElse => 0,
        Op::AndAlso => 1,
        Op::Or => 2,
        Op::Xor => 3,
        Op::And => 4,
        Op::Eq | Op::Ne => 5,
        Op::Lt | Op::Le | Op::Gt | Op::Ge => 6,
        Op::Shl | Op::Shr => 7,
        Op::Add | Op::Sub => 8,
        Op::Mul | Op::Div | Op::Rem => 9,
        Op::Pow => 10,
    }
}

impl<'t, 'a> Parser<'t, 'a> {
    // Takes the next token, if it is an operator that binds at least so tightly.
    fn operator(&mut self, least: u8) -> Option<(Op, Place)>
        ensures { MatchOption result ((self.new ≡ self.old) × IsLooser least self.old) (λ o. TakesOperator least self.old self.new o.0 o.1) }
    {
        let all: &'t [CompactToken<'a>] = self.rest;
        let next = all.first()?;
        let first = next.token();
        let TokenKind::Mark(mark) = first.kind else {
            return None;
        };
        let op = operator_of(mark)?;
        if level(op) < least {
            return None;
        }
        self.rest = &all[1..];
        Some((op, first.place))
    }

    /// prop = name | "woset" | "woclr" | "rclr" | "rset" .
    pub fn prop(&mut self) -> Result<Name<'a>, Stop>
        ensures tree { IfOk result (DerivesProp self.old self.new) }
        ensures reads { OnOk result (Same grammar [] (Non rules.Prop ∷ []) self.old [] self.new) }
        ensures stops { result ≡ Err Stop.Syntax → Stops grammar [] (Non rules.Prop ∷ []) self.old self.new }
    {
        if let Some(name) = self.name() {
            return Ok(name);
        }
        let Some((_, token)) = self.word_of(Sort::Prop) else {
            return Err(Stop::Syntax);
        };
        Ok(Name {
            text: token.text,
            place: token.place,
        })
    }

    // An operator with its operands, which lie in the arena.
    fn pair(&self, op: Op, left: Expr<'a>, right: Expr<'a>, place: Place) -> Result<Expr<'a>, Stop>
        ensures is { IfOk result (IsPair op left.entry right.entry place) }
        ensures memory { IfErr result (λ stop. stop ≡ Stop.NoMemory) }
    {
        let first = self.lodged(left)?;
        let second = self.lodged(right)?;
        Ok(Expr::Binary(op, first, second, place))
    }

    // A choice, of which the parts lie in the arena.
    fn pick(
        &self,
        test: Expr<'a>,
        yes: Expr<'a>,
        no: Expr<'a>,
        place: Place,
    ) -> Result<Expr<'a>, Stop>
        ensures is { IfOk result (IsPick test.entry yes.entry no.entry place) }
        ensures memory { IfErr result (λ stop. stop ≡ Stop.NoMemory) }
    {
        let first = self.lodged(test)?;
        let second = self.lodged(yes)?;
        let third = self.lodged(no)?;
        Ok(Expr::Pick(first, second, third, place))
    }

    // The number or string at the front, or the boolean.
    fn literal(&mut self) -> Option<Expr<'a>>
        ensures { MatchOption result ((self.new ≡ self.old) × Same grammar after_primary (Non rules.Primary ∷ []) self.old (brackets_or_name ∷ []) self.new)
            (λ e. DerivesPrimary self.old self.new e × Same grammar after_primary (Non rules.Primary ∷ []) self.old [] self.new) }
    {
        if let Some((value, place)) = self.number() {
            return Some(Expr::Number(value, place));
        }
        if let Some(string) = self.eat(Terminal::Str) {
            return Some(Expr::Str(string.text, string.place));
        }
        self.flag()
    }

    // The boolean at the front.
    fn flag(&mut self) -> Option<Expr<'a>>
        ensures { MatchOption result ((self.new ≡ self.old) × Same grammar after_primary (flag_or_other ∷ []) self.old (brackets_or_name ∷ []) self.new)
            (λ e. DerivesPrimary self.old self.new e × Same grammar after_primary (flag_or_other ∷ []) self.old [] self.new) }
    {
        if let Some(word) = self.word(Keyword::True) {
            return Some(Expr::Flag(true, word.place));
        }
        let Some(word) = self.word(Keyword::False) else {
            return None;
        };
        Some(Expr::Flag(false, word.place))
    }

    /// expr = binary [ "?" binary ":" binary ] .
    #[cycle(expr)]
    pub fn expr(&mut self) -> Result<Expr<'a>, Stop>
        ensures tree { IfOk result (DerivesExpr self.old self.new) }
        ensures reads { OnOk result (Same grammar after_expr (Non rules.Expr ∷ []) self.old [] self.new) }
        ensures stops { result ≡ Err Stop.Syntax → Stops grammar after_expr (Non rules.Expr ∷ []) self.old self.new }
    {
        let test = self.binary()?;
        let Some(question) = self.mark(Mark::Question) else {
            return Ok(test);
        };
        self.choice(test, question.place)
    }

    // What follows the "?" of a test: binary ":" binary .
    #[cycle(expr)]
    fn choice(&mut self, test: Expr<'a>, place: Place) -> Result<Expr<'a>, Stop>
        ensures tree { (t : token.Token) (ts us : List token.Token) → DerivesBinary 0 ts us test.entry → IsMark marks.Question us t self.old → place ≡ t.place → IfOk result (DerivesExpr ts self.new) }
        ensures reads { OnOk result (Same grammar after_expr (Non rules.Binary ∷ (mark marks.Colon then Non rules.Binary) ∷ []) self.old [] self.new) }
        ensures stops { result ≡ Err Stop.Syntax → Stops grammar after_expr (Non rules.Binary ∷ (mark marks.Colon then Non rules.Binary) ∷ []) self.old self.new }
    {
        let yes = self.binary()?;
        let _colon = self.expect(Mark::Colon)?;
        let no = self.binary()?;
        self.pick(test, yes, no, place)
    }

    // binary = prefix { operator prefix } .
    #[cycle(expr)]
    fn binary(&mut self) -> Result<Expr<'a>, Stop>
        ensures tree { IfOk result (DerivesBinary 0 self.old self.new) }
        ensures reads { OnOk result (Same grammar after_binary (Non rules.Binary ∷ []) self.old [] self.new) }
        ensures stops { result ≡ Err Stop.Syntax → Stops grammar after_binary (Non rules.Binary ∷ []) self.old self.new }
    {
        self.joined(0)
    }

    // The operands that operators join which bind at least so tightly.
    #[cycle(expr)]
    fn joined(&mut self, least: u8) -> Result<Expr<'a>, Stop>
        requires { least ≤ 11 }
        ensures tree { IfOk result (DerivesBinary least self.old self.new) }
        ensures looser { OnOk result (IsLooser least self.new) }
        ensures reads { OnOk result (Same grammar after_binary (Non rules.Prefix ∷ operands ∷ []) self.old (operands ∷ []) self.new) }
        ensures stops { result ≡ Err Stop.Syntax → Stops grammar after_binary (Non rules.Prefix ∷ operands ∷ []) self.old self.new }
    {
        let mut left = self.prefix()?;
        'more: while let Some((op, place)) = self.operator(least) {
            let right = self.joined(level(op) + 1)?;
            left = self.pair(op, left, right, place)?;
        }
        Ok(left)
    }

    // prefix = [ "!" ] primary .
    #[cycle(expr)]
    fn prefix(&mut self) -> Result<Expr<'a>, Stop>
        ensures tree { IfOk result (DerivesPrefix self.old self.new) }
        ensures reads { OnOk result (Same grammar after_primary (Non rules.Prefix ∷ []) self.old [] self.new) }
        ensures stops { result ≡ Err Stop.Syntax → Stops grammar after_primary (Non rules.Prefix ∷ []) self.old self.new }
    {
        let Some(not) = self.mark(Mark::Not) else {
            return self.primary();
        };
        let operand = self.primary()?;
        Ok(Expr::Not(self.lodged(operand)?, not.place))
    }

    // primary = number | string | "true" | "false" | "(" expr ")" | name "::" name | path [ "->" prop ] .
    #[cycle(expr)]
    fn primary(&mut self) -> Result<Expr<'a>, Stop>
        ensures tree { IfOk result (DerivesPrimary self.old self.new) }
        ensures reads { OnOk result (Same grammar after_primary (Non rules.Primary ∷ []) self.old [] self.new) }
        ensures stops { result ≡ Err Stop.Syntax → Stops grammar after_primary (Non rules.Primary ∷ []) self.old self.new }
    {
        if let Some(literal) = self.literal() {
            return Ok(literal);
        }
        if let Some(_) = self.mark(Mark::OpenParen) {
            return self.bracketed();
        }
        let name = self.expect_name()?;
        self.named(name)
    }

    // What follows a bracket that begins a primary: expr ")" .
    #[cycle(expr)]
    fn bracketed(&mut self) -> Result<Expr<'a>, Stop>
        ensures tree { (t : token.Token) (ts : List token.Token) → IsMark marks.OpenParen ts t self.old → IfOk result (DerivesPrimary ts self.new) }
        ensures reads { OnOk result (Same grammar after_primary (Non rules.Expr ∷ mark marks.CloseParen ∷ []) self.old [] self.new) }
        ensures stops { result ≡ Err Stop.Syntax → Stops grammar after_primary (Non rules.Expr ∷ mark marks.CloseParen ∷ []) self.old self.new }
    {
        let inner = self.expr()?;
        let _close = self.expect(Mark::CloseParen)?;
        Ok(inner)
    }

    // What follows a name that begins a primary.
    #[cycle(expr)]
    fn named(&mut self, name: Name<'a>) -> Result<Expr<'a>, Stop>
        ensures tree { (ts : List token.Token) → IsName ts self.old name.entry → IfOk result (DerivesPrimary ts self.new) }
        ensures reads { OnOk result (Same grammar after_primary (behind_name ∷ []) self.old [] self.new) }
        ensures stops { result ≡ Err Stop.Syntax → Stops grammar after_primary (behind_name ∷ []) self.old self.new }
    {
        if let Some(_) = self.mark(Mark::ColonColon) {
            let entry = self.expect_name()?;
            return Ok(Expr::EntryOf(name, entry));
        }
        let path = self.path_from(name)?;
        let Some(_) = self.mark(Mark::Arrow) else {
            return Ok(Expr::Ref(path, None));
        };
        let item = self.prop()?;
        Ok(Expr::Ref(path, Some(item)))
    }

    /// What follows the first name of a path: { "[" expr "]" } { "." step } .
    #[cycle(expr)]
    pub fn path_from(&mut self, first: Name<'a>) -> Result<Path<'a>, Stop>
        ensures tree { (ts : List token.Token) → IsName ts self.old first.entry → IfOk result (DerivesPath ts self.new) }
        ensures reads { OnOk result (Same grammar after_path (Many (Non rules.Index) ∷ more_steps ∷ []) self.old [] self.new) }
        ensures stops { result ≡ Err Stop.Syntax → Stops grammar after_path (Many (Non rules.Index) ∷ more_steps ∷ []) self.old self.new }
    {
        let mut steps = self.room(Run::Steps);
        self.add_step(&mut steps, first)?;
        'more: while let Some(_) = self.mark(Mark::Dot) {
            let name = self.expect_name()?;
            self.add_step(&mut steps, name)?;
        }
        Ok(Path {
            steps: into_bump_slice(steps),
        })
    }

    // Adds the step of a name to those that were read.
    #[cycle(expr)]
    fn add_step(&mut self, steps: &mut Vec<Step<'a>, &'a Bump>, name: Name<'a>) -> Result<(), Stop>
        ensures tree { OnOk result (AddsStep name.entry self.old self.new steps.old.items steps.new.items) }
        ensures reads { OnOk result (Same grammar after_indices (Many (Non rules.Index) ∷ []) self.old [] self.new) }
        ensures stops { result ≡ Err Stop.Syntax → Stops grammar after_indices (Many (Non rules.Index) ∷ []) self.old self.new }
    {
        let index = self.indices()?;
        add(steps, Step { name, index })
    }

    /// { "[" expr "]" } .
    #[cycle(expr)]
    pub fn indices(&mut self) -> Result<&'a [Expr<'a>], Stop>
        ensures tree { IfOk result (λ es. DerivesIndices self.old self.new es.now) }
        ensures reads { OnOk result (Same grammar after_indices (Many (Non rules.Index) ∷ []) self.old [] self.new) }
        ensures stops { result ≡ Err Stop.Syntax → Stops grammar after_indices (Many (Non rules.Index) ∷ []) self.old self.new }
    {
        let mut index = self.room(Run::Indices);
        'more: while let Some(_) = self.mark(Mark::OpenBracket) {
            self.add_index(&mut index)?;
        }
        Ok(into_bump_slice(index))
    }

    /// Adds an index, behind its bracket, to those that were read: expr "]" .
    #[cycle(expr)]
    pub fn add_index(&mut self, index: &mut Vec<Expr<'a>, &'a Bump>) -> Result<(), Stop>
        ensures tree { OnOk result (Adds ClosesIndex self.old self.new index.old.items index.new.items) }
        ensures reads { OnOk result (Same grammar [] (Non rules.Expr ∷ mark marks.CloseBracket ∷ []) self.old [] self.new) }
        ensures stops { result ≡ Err Stop.Syntax → Stops grammar [] (Non rules.Expr ∷ mark marks.CloseBracket ∷ []) self.old self.new }
    {
        let at = self.expr()?;
        let _close = self.expect(Mark::CloseBracket)?;
        add(index, at)
    }
}
