//! A module (IEEE 1364-2005, clause 12.1).

ghost use Rattle.std.specs.Prelude.{◌≡◌, Err, [], ◌∷◌, IfOk, OnOk};
ghost use Rattle.rb_grammar.specs.Readings.{Same, Stops};
ghost use Rattle.rb_grammar.specs.Forms.{Non};
ghost use Rattle.v_syntax.specs.Grammar.{grammar};
ghost use Rattle.v_syntax.specs.Grammar as rules;
ghost use Rattle.v_parser.specs.Reading.{ReadsModule};

use crate::cursor::Parser;
use rb_grammar::Stop;
use v_syntax::Parsed;

impl<'t, 's> Parser<'t, 's> {
    // module = "module" id "(" port { "," port } ")" ";" { decl } { stmt } "endmodule" .
    pub(crate) fn module(&mut self) -> Result<Parsed<'s>, Stop>
        ensures tree { IfOk result (ReadsModule self.old self.new) }
        ensures reads { OnOk result (Same grammar [] (Non rules.Module ∷ []) self.old [] self.new) }
        ensures stops { result ≡ Err Stop.Syntax → Stops grammar [] (Non rules.Module ∷ []) self.old self.new }
    {
        let size = self.count();
        let mut ports = Vec::new(self.alloc);
        let mut declared = Vec::new(self.alloc);
        let mut events = Vec::new(self.alloc);
        let _module = self.expect(b"module")?;
        let name = self.name()?;
        let _open = self.expect(b"(")?;
        let (port, place) = self.port()?;
        ports.push(port)?;
        declared.push(place)?;
        self.more_ports(&mut ports, &mut declared)?;
        let _close = self.expect(b")")?;
        let _header = self.expect(b";")?;
        let decls = self.decls(&mut declared)?;
        let before = size - self.count();
        let stmts = self.statements(&mut events)?;
        let _end = self.expect(b"endmodule")?;
        Ok(Parsed {
            name: name.text,
            ports,
            decls,
            stmts,
            events,
            declared,
            before,
        })
    }
}
