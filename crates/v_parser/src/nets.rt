//! Ports and declarations (IEEE 1364-2005, clauses 12.3.3, 4.2.1 and 4.2.2).

ghost use Rattle.std.specs.Prelude.{◌≡◌, Err, [], ◌∷◌, ◌||◌, codes, IfOk, OnOk};
ghost use Rattle.rb_grammar.specs.Readings.{at, Same, Stops};
ghost use Rattle.rb_grammar.specs.Forms.{Non, ◌or◌, Opt, Many, ◌then◌};
ghost use Rattle.v_syntax.specs.Grammar.{grammar, quoted, Quoted};
ghost use Rattle.v_syntax.specs.Grammar as rules;
ghost use Rattle.v_parser.specs.Reading.{after_range, after_ports, after_decls, ReadsSide, ReadsRange, ReadsWord, ReadsPort, ReadsDecl, AddsPorts, AddsDecls};

use crate::cursor::{Parser, text};
use rb_base::{Dir, Place, Port};
use rb_grammar::Stop;
use v_design::Decl;

impl<'t, 's> Parser<'t, 's> {
    // side = "input" | "output" .
    fn side(&mut self) -> Result<Dir, Stop>
        ensures tree { IfOk result (ReadsSide self.old self.new) }
        ensures reads { OnOk result (Same grammar [] (Non rules.Side ∷ []) self.old [] self.new) }
        ensures stops { result ≡ Err Stop.Syntax → Stops grammar [] (Non rules.Side ∷ []) self.old self.new }
    {
        if let Some(_) = self.eat(b"input") {
            return Ok(Dir::In);
        }
        let _output = self.expect(b"output")?;
        Ok(Dir::Out)
    }

    // [ range ], as a width in bits, 1 where it is not there.
    fn width(&mut self) -> Result<u8, Stop>
        ensures tree { IfOk result (ReadsRange self.old self.new) }
        ensures reads { OnOk result (Same grammar after_range (Opt (Non rules.Range) ∷ []) self.old [] self.new) }
        ensures stops { result ≡ Err Stop.Syntax → Stops grammar after_range (Opt (Non rules.Range) ∷ []) self.old self.new }
    {
        let Some(_) = self.eat(b"[") else {
            return Ok(1);
        };
        let high = self.high()?;
        let _colon = self.expect(b":")?;
        self.zero()?;
        let _close = self.expect(b"]")?;
        Ok(high + 1)
    }

    // port = side [ range ] id .
    pub(crate) fn port(&mut self) -> Result<(Port, Place), Stop>
        ensures tree { IfOk result (λ p. ReadsPort self.old self.new p.0 p.1) }
        ensures reads { OnOk result (Same grammar [] (Non rules.Port ∷ []) self.old [] self.new) }
        ensures stops { result ≡ Err Stop.Syntax → Stops grammar [] (Non rules.Port ∷ []) self.old self.new }
    {
        let dir = self.side()?;
        let width = self.width()?;
        let name = self.name()?;
        let port = Port {
            dir,
            name: text(self.alloc, name.text)?,
            width,
        };
        Ok((port, name.place))
    }

    // "wire" | "reg", whether it is the second.
    fn register(&mut self) -> Result<bool, Stop>
        ensures tree { IfOk result (ReadsWord self.old self.new) }
        ensures reads { OnOk result (Same grammar [] ((quoted "wire" or quoted "reg") ∷ []) self.old [] self.new) }
        ensures stops { result ≡ Err Stop.Syntax → Stops grammar [] ((quoted "wire" or quoted "reg") ∷ []) self.old self.new }
    {
        if let Some(_) = self.eat(b"wire") {
            return Ok(false);
        }
        let _reg = self.expect(b"reg")?;
        Ok(true)
    }

    // decl = ( "wire" | "reg" ) [ range ] id ";" .
    fn decl(&mut self) -> Result<(Decl, Place), Stop>
        ensures tree { IfOk result (λ d. ReadsDecl self.old self.new d.0 d.1) }
        ensures reads { OnOk result (Same grammar [] (Non rules.Decl ∷ []) self.old [] self.new) }
        ensures stops { result ≡ Err Stop.Syntax → Stops grammar [] (Non rules.Decl ∷ []) self.old self.new }
    {
        let reg = self.register()?;
        let width = self.width()?;
        let name = self.name()?;
        let _end = self.expect(b";")?;
        let decl = Decl {
            reg,
            name: text(self.alloc, name.text)?,
            width,
        };
        Ok((decl, name.place))
    }

    // { "," port }, behind the first.
    pub(crate) fn more_ports(
        &mut self,
        ports: &mut Vec<Port>,
        declared: &mut Vec<Place>,
    ) -> Result<(), Stop>
        ensures tree { OnOk result (AddsPorts self.old self.new ports.old.items ports.new.items declared.old.items declared.new.items) }
        ensures reads { OnOk result (Same grammar after_ports (Many (quoted "," then Non rules.Port) ∷ []) self.old [] self.new) }
        ensures stops { result ≡ Err Stop.Syntax → Stops grammar after_ports (Many (quoted "," then Non rules.Port) ∷ []) self.old self.new }
    {
        'more: while let Some(_) = self.eat(b",") {
            let (port, place) = self.port()?;
            ports.push(port)?;
            declared.push(place)?;
        }
        Ok(())
    }

    // A declaration begins here.
    fn begins_decl(&self) -> bool
        ensures { result ≡ (at grammar (Quoted (codes "wire")) self.now || at grammar (Quoted (codes "reg")) self.now) }
    {
        self.begins(b"wire") || self.begins(b"reg")
    }

    // { decl }.
    pub(crate) fn decls(&mut self, declared: &mut Vec<Place>) -> Result<Vec<Decl>, Stop>
        ensures tree { IfOk result (λ ds. AddsDecls self.old self.new ds.items declared.old.items declared.new.items) }
        ensures reads { OnOk result (Same grammar after_decls (Many (Non rules.Decl) ∷ []) self.old [] self.new) }
        ensures stops { result ≡ Err Stop.Syntax → Stops grammar after_decls (Many (Non rules.Decl) ∷ []) self.old self.new }
    {
        let mut decls = Vec::new(self.alloc);
        'more: while self.begins_decl() {
            let (decl, place) = self.decl()?;
            decls.push(decl)?;
            declared.push(place)?;
        }
        Ok(decls)
    }
}
