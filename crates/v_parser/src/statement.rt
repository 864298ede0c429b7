//! Statements (IEEE 1364-2005, clauses 6.1 and 9.9.2).

ghost use Rattle.std.specs.Prelude.{◌≡◌, Err, [], ◌∷◌, ◌||◌, codes, OnSome, IfOk, OnOk};
ghost use Rattle.rb_grammar.specs.Readings.{at, Same, Stops};
ghost use Rattle.rb_grammar.specs.Forms.{Non, Opt, Many, ◌then◌};
ghost use Rattle.v_syntax.specs.Grammar.{grammar, quoted, Quoted};
ghost use Rattle.v_syntax.specs.Grammar as rules;
ghost use Rattle.v_design.specs.Tree as tree;
ghost use Rattle.v_parser.specs.Reading.{after_bang, after_stmts, transfer, equation, behind_clock, behind_test, behind_event, ReadsMarked, ReadsClock, ReadsEvent, ReadsTest, ReadsValue, ReadsEdge, ReadsNegation, ReadsStatement, ReadsReset, AddsStatements};

use crate::cursor::{Name, Parser, text};
use rb_base::Place;
use rb_grammar::Stop;
use v_design::{Stmt, VExpr, VReset};
use v_syntax::Event;

impl<'t, 's> Parser<'t, 's> {
    // edge = "posedge" | "negedge" ., whether it is the second.
    fn edge(&mut self) -> Result<bool, Stop>
        ensures tree { IfOk result (ReadsEdge self.old self.new) }
        ensures reads { OnOk result (Same grammar [] (Non rules.Edge ∷ []) self.old [] self.new) }
        ensures stops { result ≡ Err Stop.Syntax → Stops grammar [] (Non rules.Edge ∷ []) self.old self.new }
    {
        if let Some(_) = self.eat(b"posedge") {
            return Ok(false);
        }
        let _negedge = self.expect(b"negedge")?;
        Ok(true)
    }

    // [ "!" ], whether it is there.
    fn negation(&mut self) -> bool
        ensures tree { ReadsNegation self.old self.new result }
        ensures reads { Same grammar after_bang (Opt (quoted "!") ∷ []) self.old [] self.new }
    {
        match self.eat(b"!") {
            Some(_) => true,
            None => false,
        }
    }

    // id "<=" expr ";" .
    fn transfer(&mut self) -> Result<(Name<'s>, VExpr), Stop>
        ensures tree { IfOk result (λ r. ReadsMarked (tree.quoted "<=") self.old self.new r.0.text.now r.1) }
        ensures reads { OnOk result (Same grammar [] (transfer ∷ []) self.old [] self.new) }
        ensures stops { result ≡ Err Stop.Syntax → Stops grammar [] (transfer ∷ []) self.old self.new }
    {
        let to = self.name()?;
        let _arrow = self.expect(b"<=")?;
        let expr = self.expr()?;
        let _end = self.expect(b";")?;
        Ok((to, expr))
    }

    // id "=" expr ";" .
    fn equation(&mut self) -> Result<(Name<'s>, VExpr), Stop>
        ensures tree { IfOk result (λ r. ReadsMarked (tree.quoted "=") self.old self.new r.0.text.now r.1) }
        ensures reads { OnOk result (Same grammar [] (equation ∷ []) self.old [] self.new) }
        ensures stops { result ≡ Err Stop.Syntax → Stops grammar [] (equation ∷ []) self.old self.new }
    {
        let to = self.name()?;
        let _equals = self.expect(b"=")?;
        let expr = self.expr()?;
        let _end = self.expect(b";")?;
        Ok((to, expr))
    }

    // The event of a reset: "or" edge id ")", whether the edge falls, and the pin.
    fn reset_event(&mut self) -> Result<(bool, Name<'s>), Stop>
        ensures tree { IfOk result (λ r. ReadsEvent self.old self.new r.0 r.1.text.now) }
        ensures reads { OnOk result (Same grammar [] (Non rules.Reset ∷ []) self.old (behind_event ∷ []) self.new) }
        ensures stops { result ≡ Err Stop.Syntax → Stops grammar [] (Non rules.Reset ∷ []) self.old self.new }
    {
        let _or = self.expect(b"or")?;
        let low = self.edge()?;
        let pin = self.name()?;
        let _events = self.expect(b")")?;
        Ok((low, pin))
    }

    // The test of a reset: "if" "(" [ "!" ] id ")", whether it is negated, and what is tested.
    fn reset_test(&mut self) -> Result<(bool, Name<'s>), Stop>
        ensures tree { IfOk result (λ r. ReadsTest self.old self.new r.0 r.1.text.now) }
        ensures reads { OnOk result (Same grammar [] (behind_event ∷ []) self.old (behind_test ∷ []) self.new) }
        ensures stops { result ≡ Err Stop.Syntax → Stops grammar [] (behind_event ∷ []) self.old self.new }
    {
        let _if = self.expect(b"if")?;
        let _open = self.expect(b"(")?;
        let negated = self.negation();
        let test = self.name()?;
        let _close = self.expect(b")")?;
        Ok((negated, test))
    }

    // The value under a reset: id "<=" const ";" .
    fn reset_value(&mut self) -> Result<(Name<'s>, u8, u128), Stop>
        ensures tree { IfOk result (λ r. ReadsValue self.old self.new r.0.text.now r.1 r.2) }
        ensures reads { OnOk result (Same grammar [] (behind_test ∷ []) self.old ((quoted "else" then transfer) ∷ []) self.new) }
        ensures stops { result ≡ Err Stop.Syntax → Stops grammar [] (behind_test ∷ []) self.old self.new }
    {
        let to = self.name()?;
        let _takes = self.expect(b"<=")?;
        let (width, value) = self.constant()?;
        let _end = self.expect(b";")?;
        Ok((to, width, value))
    }

    // reset = "or" edge id ")" "if" "(" [ "!" ] id ")" id "<=" const ";" "else" id "<=" expr ";" ., behind the clock.
    fn resettable(&mut self, place: Place, clock: &'s [u8]) -> Result<(Stmt, Event<'s>), Stop>
        ensures tree { IfOk result (λ p. ReadsReset clock.now place.0 self.old self.new p.0 p.1) }
        ensures reads { OnOk result (Same grammar [] (Non rules.Reset ∷ []) self.old [] self.new) }
        ensures stops { result ≡ Err Stop.Syntax → Stops grammar [] (Non rules.Reset ∷ []) self.old self.new }
    {
        let (low, pin) = self.reset_event()?;
        let (negated, test) = self.reset_test()?;
        let (to, width, value) = self.reset_value()?;
        let pin = text(self.alloc, pin.text)?;
        let to = text(self.alloc, to.text)?;
        let _else = self.expect(b"else")?;
        let (again, expr) = self.transfer()?;
        let reset = VReset {
            pin,
            low,
            width,
            value,
        };
        let stmt = Stmt {
            to,
            clocked: true,
            reset: Some(reset),
            expr,
            place,
        };
        let event = Event::Reset {
            clock,
            negated,
            test: test.text,
            again: again.text,
        };
        Ok((stmt, event))
    }

    // The event of a clock: "always" "@" "(" "posedge" id, its place, and the clock.
    fn clock_event(&mut self) -> Result<(Place, Name<'s>), Stop>
        ensures tree { IfOk result (λ r. ReadsClock self.old self.new r.0 r.1.text.now) }
        ensures reads { OnOk result (Same grammar [] (Non rules.Block ∷ []) self.old (behind_clock ∷ []) self.new) }
        ensures stops { result ≡ Err Stop.Syntax → Stops grammar [] (Non rules.Block ∷ []) self.old self.new }
    {
        let place = self.expect(b"always")?;
        let _at = self.expect(b"@")?;
        let _open = self.expect(b"(")?;
        let _posedge = self.expect(b"posedge")?;
        let clock = self.name()?;
        Ok((place, clock))
    }

    // block = "always" "@" "(" "posedge" id ( ")" id "<=" expr ";" | reset ) .
    fn block(&mut self) -> Result<(Stmt, Event<'s>), Stop>
        ensures tree { IfOk result (λ p. ReadsStatement self.old self.new p.0 p.1) }
        ensures reads { OnOk result (Same grammar [] (Non rules.Block ∷ []) self.old [] self.new) }
        ensures stops { result ≡ Err Stop.Syntax → Stops grammar [] (Non rules.Block ∷ []) self.old self.new }
    {
        let (place, clock) = self.clock_event()?;
        let Some(_) = self.eat(b")") else {
            return self.resettable(place, clock.text);
        };
        let (to, expr) = self.transfer()?;
        let stmt = Stmt {
            to: text(self.alloc, to.text)?,
            clocked: true,
            reset: None,
            expr,
            place,
        };
        Ok((stmt, Event::Clock(clock.text)))
    }

    // stmt = "assign" id "=" expr ";" | block .
    fn statement(&mut self) -> Result<(Stmt, Event<'s>), Stop>
        ensures tree { IfOk result (λ p. ReadsStatement self.old self.new p.0 p.1) }
        ensures reads { OnOk result (Same grammar [] (Non rules.Stmt ∷ []) self.old [] self.new) }
        ensures stops { result ≡ Err Stop.Syntax → Stops grammar [] (Non rules.Stmt ∷ []) self.old self.new }
    {
        let Some(place) = self.eat(b"assign") else {
            return self.block();
        };
        let (to, expr) = self.equation()?;
        let stmt = Stmt {
            to: text(self.alloc, to.text)?,
            clocked: false,
            reset: None,
            expr,
            place,
        };
        Ok((stmt, Event::None))
    }

    // A statement begins here.
    fn begins_statement(&self) -> bool
        ensures { result ≡ (at grammar (Quoted (codes "assign")) self.now || at grammar (Quoted (codes "always")) self.now) }
    {
        self.begins(b"assign") || self.begins(b"always")
    }

    // { stmt }.
    pub(crate) fn statements(&mut self, events: &mut Vec<Event<'s>>) -> Result<Vec<Stmt>, Stop>
        ensures tree { IfOk result (λ ss. AddsStatements self.old self.new ss.items events.old.items events.new.items) }
        ensures reads { OnOk result (Same grammar after_stmts (Many (Non rules.Stmt) ∷ []) self.old [] self.new) }
        ensures stops { result ≡ Err Stop.Syntax → Stops grammar after_stmts (Many (Non rules.Stmt) ∷ []) self.old self.new }
    {
        let mut stmts = Vec::new(self.alloc);
        'more: while self.begins_statement() {
            let (stmt, event) = self.statement()?;
            stmts.push(stmt)?;
            events.push(event)?;
        }
        Ok(stmts)
    }
}
