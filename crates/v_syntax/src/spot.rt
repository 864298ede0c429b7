//! Tokens as spots of a text.

ghost use Rattle.std.specs.Prelude.{◌≡◌};
ghost use Rattle.v_syntax.specs.Grammar.{word_nesting, nesting};
ghost use Rattle.v_syntax.specs.Tokens.{text_of, spotted};

use rb_base::Place;
use rb_grammar::Nesting;

/// The class of a token's lexeme (IEEE 1364-2005, clause 3): an identifier, a decimal number, a constant, a reserved
/// word of the subset, or a mark.
#[derive(Clone, Copy, Debug, PartialEq, Eq)]
pub enum VClass {
    Id,
    Dec,
    Const,
    Word,
    Mark,
}

/// A token of a text: where its lexeme stands, how many bytes that has, and its class. What it says is read again from
/// the text.
#[derive(Clone, Copy, Debug)]
pub struct VSpot {
    pub place: Place,
    pub len: u32,
    pub class: VClass,
}

// A long text has many.
const _: () = prove!(size_of::<VSpot>() == 12);

// What a word or mark does to the brackets that are open.
fn nesting_of(text: &[u8]) -> Nesting
    ensures { result ≡ word_nesting text.now }
{
    match text {
        b"(" | b"{" => Nesting::Opens,
        b")" | b"}" => Nesting::Closes,
        _ => Nesting::Neither,
    }
}

impl VSpot {
    /// Its bytes in the text, as far as the text has them.
    pub fn text<'s>(&self, bytes: &'s [u8]) -> &'s [u8]
        ensures { result.now ≡ text_of bytes.now self.now }
    {
        let start = bytes.len().min(self.place.0 as usize);
        let rest = &bytes[start..];
        let len = rest.len().min(self.len as usize);
        &rest[..len]
    }

    /// What it does to the brackets that are open.
    pub fn nesting(&self, bytes: &[u8]) -> Nesting
        ensures { result ≡ nesting (spotted bytes.now self.now) }
    {
        match self.class {
            VClass::Word | VClass::Mark => nesting_of(self.text(bytes)),
            VClass::Id | VClass::Dec | VClass::Const => Nesting::Neither,
        }
    }
}
