//! Expressions (IEEE 1364-2005, clause 5).

ghost use Rattle.std.specs.Prelude.{◌≡◌, Err, List, [], ◌∷◌, codes, IfOk, IfErr, OnOk};
ghost use Rattle.rb_grammar.specs.Readings.{Takes, Same, Stops};
ghost use Rattle.rb_grammar.specs.Spelling.{At};
ghost use Rattle.rb_grammar.specs.Forms.{Non, Opt, ◌then◌};
ghost use Rattle.v_design.specs.Expr.{Two, Pick};
ghost use Rattle.v_design.specs.Lexemes.{Token};
ghost use Rattle.v_design.specs.Seen.{expr_seen};
ghost use Rattle.v_design.specs.Tree as tree;
ghost use Rattle.v_syntax.specs.Grammar.{grammar, quoted, Quoted};
ghost use Rattle.v_syntax.specs.Grammar as rules;
ghost use Rattle.v_parser.specs.Reading.{ReadsTerm, ReadsOperand, ReadsSelect, after_expr, after_operand};

use crate::cursor::{Parser, text};
use rb_grammar::Stop;
use v_design::{VExpr, VTwo};

impl<'t, 's> Parser<'t, 's> {
    // expr = prefix operand | operand [ infix operand | "?" operand ":" operand ] .
    #[cycle(expr)]
    pub(crate) fn expr(&mut self) -> Result<VExpr, Stop>
        ensures tree { IfOk result (ReadsTerm self.old self.new) }
        ensures reads { OnOk result (Same grammar after_expr (Non rules.Expr ∷ []) self.old [] self.new) }
        ensures stops { result ≡ Err Stop.Syntax → Stops grammar after_expr (Non rules.Expr ∷ []) self.old self.new }
    {
        if let Some(op) = self.prefix() {
            let of = self.operand()?;
            return Ok(VExpr::One(op, Box::new(self.alloc, of)?));
        }
        let first = self.operand()?;
        if let Some(op) = self.infix() {
            let second = self.operand()?;
            return self.two(op, first, second);
        }
        let Some(_) = self.eat(b"?") else {
            return Ok(first);
        };
        self.choice(first)
    }

    // What follows the "?" of an operand: operand ":" operand .
    #[cycle(expr)]
    fn choice(&mut self, first: VExpr) -> Result<VExpr, Stop>
        ensures tree { (t : At Token) (ts us : List (At Token)) → ReadsOperand ts us first → Takes grammar (Quoted (codes "?")) us t self.old → t.token ≡ tree.quoted "?" → IfOk result (ReadsTerm ts self.new) }
        ensures reads { OnOk result (Same grammar after_expr (Non rules.Operand ∷ (quoted ":" then Non rules.Operand) ∷ []) self.old [] self.new) }
        ensures stops { result ≡ Err Stop.Syntax → Stops grammar after_expr (Non rules.Operand ∷ (quoted ":" then Non rules.Operand) ∷ []) self.old self.new }
    {
        let second = self.operand()?;
        let _colon = self.expect(b":")?;
        let third = self.operand()?;
        self.pick(first, second, third)
    }

    // An operator with its operands.
    fn two(&self, op: VTwo, first: VExpr, second: VExpr) -> Result<VExpr, Stop>
        ensures seen { IfOk result (λ x. expr_seen x ≡ Two op (expr_seen first) (expr_seen second)) }
        ensures memory { IfErr result (λ stop. stop ≡ Stop.NoMemory) }
    {
        let left = Box::new(self.alloc, first)?;
        let right = Box::new(self.alloc, second)?;
        Ok(VExpr::Two(op, left, right))
    }

    // A choice of two by a test.
    fn pick(&self, first: VExpr, second: VExpr, third: VExpr) -> Result<VExpr, Stop>
        ensures seen { IfOk result (λ x. expr_seen x ≡ Pick (expr_seen first) (expr_seen second) (expr_seen third)) }
        ensures memory { IfErr result (λ stop. stop ≡ Stop.NoMemory) }
    {
        let test = Box::new(self.alloc, first)?;
        let chosen = Box::new(self.alloc, second)?;
        let other = Box::new(self.alloc, third)?;
        Ok(VExpr::Pick(test, chosen, other))
    }

    // operand = id [ select ] | const | "{" operand { "," operand } "}" | "(" expr ")" .
    #[cycle(expr)]
    fn operand(&mut self) -> Result<VExpr, Stop>
        ensures tree { IfOk result (ReadsOperand self.old self.new) }
        ensures reads { OnOk result (Same grammar after_operand (Non rules.Operand ∷ []) self.old [] self.new) }
        ensures stops { result ≡ Err Stop.Syntax → Stops grammar after_operand (Non rules.Operand ∷ []) self.old self.new }
    {
        if let Some(name) = self.eat_name() {
            return self.select(name.text);
        }
        if let Some((width, value)) = self.eat_constant() {
            return Ok(VExpr::Const(width, value));
        }
        if let Some(_) = self.eat(b"{") {
            let first = self.operand()?;
            let mut parts = Vec::new(self.alloc);
            parts.push(first)?;
            'more: while let Some(_) = self.eat(b",") {
                let next = self.operand()?;
                parts.push(next)?;
            }
            let _close = self.expect(b"}")?;
            return Ok(VExpr::Cat(parts));
        }
        let _open = self.expect(b"(")?;
        let inner = self.expr()?;
        let _close = self.expect(b")")?;
        Ok(inner)
    }

    // [ select ], behind a name.
    fn select(&mut self, name: &[u8]) -> Result<VExpr, Stop>
        ensures tree { IfOk result (ReadsSelect name.now self.old self.new) }
        ensures reads { OnOk result (Same grammar after_operand (Opt (Non rules.Select) ∷ []) self.old [] self.new) }
        ensures stops { result ≡ Err Stop.Syntax → Stops grammar after_operand (Opt (Non rules.Select) ∷ []) self.old self.new }
    {
        let Some(_) = self.eat(b"[") else {
            return Ok(VExpr::Net(text(self.alloc, name)?));
        };
        let high = self.decimal()?;
        if let Some(_) = self.eat(b":") {
            let low = self.decimal()?;
            let _close = self.expect(b"]")?;
            return Ok(VExpr::Bits(text(self.alloc, name)?, high, low));
        }
        let _close = self.expect(b"]")?;
        Ok(VExpr::Bits(text(self.alloc, name)?, high, high))
    }
}
