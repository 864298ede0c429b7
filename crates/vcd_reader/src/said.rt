//! What a dump says, word by word.

ghost use Rattle.std.specs.Prelude.{◌≡◌, ◌∷◌, [], drop};
ghost use Rattle.std.specs.List.{list_all};
ghost use Rattle.vcd_syntax.specs.Faulty.{is_known_bit};
ghost use Rattle.vcd_reader.specs.Bits.{bit_value};

use crate::exits::{are_known, is_change, is_number};
use crate::pins::pins_of;
use crate::rows::{Came, Rows};
use crate::variables::{Given, Variables};
use crate::waves::Waves;
use crate::words::Word;
use rb_base::Place;
use std::alloc::Global;
use vcd_syntax::{Kind, State, VcdError, binary, decimal, exit_of};

/// What was said so far, and the last word.
#[derive(Drop)]
pub(crate) struct Said<'s> {
    pub variables: Variables<'s>,
    pub rows: Rows,
    pub state: State,
    pub last: Word<'s>,
}

/// A word without its first byte.
fn tail(word: &[u8]) -> &[u8]
    ensures { result.now ≡ drop 1 word.now }
{
    match word {
        [_, tail @ ..] => tail,
        [] => word,
    }
}

// The value of a bit, where it is 0 or 1. Neither is tested for by itself, since which comes next is chance.
fn known_bit(bit: u8) -> Option<u128>
    ensures { result ≡ bit_value (bit ∷ []) }
{
    if b'0' <= bit && bit <= b'1' {
        Some(u128::from(bit - b'0'))
    } else {
        None
    }
}

/// The value of the bit that a word begins with, where it is 0 or 1.
fn bit_value(word: &[u8]) -> Option<u128>
    ensures { result ≡ bit_value word.now }
{
    match word {
        [] => Some(0),
        [bit, ..] => known_bit(*bit),
    }
}

impl<'s> Said<'s> {
    ghost use Rattle.std.specs.Prelude.{◌≡◌, ◌≢◌, ◌<◌, ◌^◌, ◌∷◌, [], true, drop, ℕ, List, Some, length, OnOk, IfSome, IfOk, IfErr};
    ghost use Rattle.std.specs.List.{position};
    ghost use Rattle.std.specs.Str.{bytes_eq};
    ghost use Rattle.vcd_syntax.specs.Exits.{exit_by};
    ghost use Rattle.vcd_syntax.specs.Tokens.{Word as TextWord};
    ghost use Rattle.vcd_syntax.specs.Reading.{Fails, IsTable};
    ghost use Rattle.vcd_syntax.specs.declared.error.VcdError.{VcdError as Error};
    ghost use Rattle.vcd_syntax.specs.declared.kind.Kind.TheVariants as kind_of;
    ghost use Rattle.vcd_syntax.specs.Known.{Known};
    ghost use Rattle.vcd_reader.specs.Steps.{IsReady, Goes, Errs, IsSaid, HoldsVariables, HoldsRows, nothing};
    ghost use Rattle.vcd_reader.specs.Fronts.{word_of};

    /// Nothing yet.
    pub fn new(alloc: Global) -> Self
        ensures state { result.state ≡ State.Front }
        ensures last { result.last.text.now ≡ [] }
        ensures place { result.last.place.0 ≡ 0 }
        ensures variables { HoldsVariables result.variables nothing }
        ensures rows { HoldsRows result.rows nothing }
    {
        Said {
            variables: Variables::new(alloc),
            rows: Rows::new(alloc),
            state: State::Front,
            last: Word {
                text: &[],
                place: Place(0),
            },
        }
    }

    fn width(&mut self, word: Word<'s>) -> Result<(), VcdError>
        requires { (k : Known) × IsReady kind_of.Width word.text.now self.old k }
        ensures on { OnOk result (Goes kind_of.Width self.old self.new word.entry.text.now) }
        ensures fault { IfErr result (Errs kind_of.Width self.old word.entry) }
    {
        let Some(width) = decimal(word.text) else {
            unreachable!();
        };
        self.variables.add_width(width as u8)?;
        Ok(())
    }

    fn code(&mut self, word: Word<'s>) -> Result<(), VcdError>
        ensures on { OnOk result (Goes kind_of.Code self.old self.new word.entry.text.now) }
        ensures fault { IfErr result (Errs kind_of.Code self.old word.entry) }
    {
        let again = self.variables.add_code(word.text)?;
        if again {
            return Err(VcdError::Twice { place: word.place });
        }
        Ok(())
    }

    fn name(&mut self, word: Word<'s>) -> Result<(), VcdError>
        ensures on { OnOk result (Goes kind_of.Name self.old self.new word.entry.text.now) }
        ensures fault { IfErr result (Errs kind_of.Name self.old word.entry) }
    {
        let again = self.variables.add_name(word.text)?;
        if again {
            return Err(VcdError::Twice { place: word.place });
        }
        Ok(())
    }

    fn time(&mut self, word: Word<'s>) -> Result<(), VcdError>
        ensures on { OnOk result (Goes kind_of.Time self.old self.new word.entry.text.now) }
        ensures fault { IfErr result (Errs kind_of.Time self.old word.entry) }
    {
        let time = decimal(tail(word.text));
        match self.rows.judge(time, self.variables.now.len()) {
            Came::Late => Err(VcdError::Time { place: word.place }),
            Came::Many => Err(VcdError::Many { place: word.place }),
            Came::Next(time) => {
                self.rows.come(time, &self.variables.now)?;
                Ok(())
            }
        }
    }

    #[inline(always)]
    fn scalar(&mut self, word: Word<'s>, found: Option<usize>) -> Result<(), VcdError>
        requires ready { (k : Known) × IsReady kind_of.Scalar word.text.now self.old k }
        requires found { IfSome found (λ n. position (bytes_eq (drop 1 word.text.now)) self.old.variables.codes ≡ Some n) }
        ensures on { OnOk result (Goes kind_of.Scalar self.old self.new word.entry.text.now) }
        ensures fault { IfErr result (Errs kind_of.Scalar self.old word.entry) }
    {
        let value = bit_value(word.text);
        match self.variables.give(tail(word.text), found, value, 1) {
            Given::Taken => Ok(()),
            Given::Unknown => Err(VcdError::Code { place: word.place }),
            Given::Unfit => Err(VcdError::Value { place: word.place }),
        }
    }

    fn bits(&mut self, word: Word<'s>) -> Result<(), VcdError>
        ensures on { OnOk result (Goes kind_of.Bits self.old self.new word.entry.text.now) }
        ensures fault { IfErr result (Errs kind_of.Bits self.old word.entry) }
    {
        if !are_known(tail(word.text)) {
            return Err(VcdError::Value { place: word.place });
        }
        Ok(())
    }

    // Bits are no event before their code.
    fn number(&mut self, word: Word<'s>)
        requires { list_all is_known_bit (drop 1 word.text.now) ≡ true }
        ensures { Goes kind_of.Bits self.old self.new word.entry.text.now }
    {
        let _ = word;
    }

    #[inline(always)]
    fn taker(&mut self, word: Word<'s>, found: Option<usize>) -> Result<(), VcdError>
        requires ready { (k : Known) × IsReady kind_of.Taker word.text.now self.old k }
        requires found { IfSome found (λ n. position (bytes_eq word.text.now) self.old.variables.codes ≡ Some n) }
        ensures on { OnOk result (Goes kind_of.Taker self.old self.new word.entry.text.now) }
        ensures fault { IfErr result (Errs kind_of.Taker self.old word.entry) }
    {
        let value = binary(tail(self.last.text));
        match self.variables.give(word.text, found, value, 128) {
            Given::Taken => Ok(()),
            Given::Unknown => Err(VcdError::Code { place: word.place }),
            Given::Unfit => Err(VcdError::Value {
                place: self.last.place,
            }),
        }
    }

    /// Takes a word of a kind.
    fn take(&mut self, kind: Kind, word: Word<'s>) -> Result<(), VcdError>
        requires { (k : Known) × IsReady kind word.text.now self.old k }
        ensures on { OnOk result (Goes kind self.old self.new word.entry.text.now) }
        ensures fault { IfErr result (Errs kind self.old word.entry) }
    {
        match kind {
            Kind::Width => self.width(word),
            Kind::Code => self.code(word),
            Kind::Name => self.name(word),
            Kind::Time => self.time(word),
            Kind::Scalar => self.scalar(word, None),
            Kind::Bits => self.bits(word),
            Kind::Taker => self.taker(word, None),
            _ => Ok(()),
        }
    }

    // The number of the variable of a short code to which a word gives a bit, behind the definitions.
    #[inline(always)]
    fn changed(&self, word: &[u8]) -> Option<usize>
        ensures leads { IfSome result (λ n. exit_by self.now.state word.now ≡ Some (Kind.Scalar, State.Entries)) }
        ensures number { IfSome result (λ n. position (bytes_eq (drop 1 word.now)) self.now.variables.codes ≡ Some n) }
    {
        if is_change(self.state, word) {
            self.variables.codes.find_short(tail(word))
        } else {
            None
        }
    }

    // The number of the variable whose short code, behind its bits, a word is.
    #[inline(always)]
    fn taken(&self, word: &[u8]) -> Option<usize>
        ensures leads { IfSome result (λ n. exit_by self.now.state word.now ≡ Some (Kind.Taker, State.Entries)) }
        ensures number { IfSome result (λ n. position (bytes_eq word.now) self.now.variables.codes ≡ Some n) }
    {
        match self.state {
            State::Taker => self.variables.codes.find_short(word),
            _ => None,
        }
    }

    // Takes the next word of a text, whatever it is.
    #[inline(never)]
    fn other_step(&mut self, word: Word<'s>) -> Result<(), VcdError>
        requires { (text : List ℕ) × (left : List TextWord) × IsSaid text (word_of word ∷ left) self.old }
        ensures on { OnOk result ((text : List ℕ) (left : List TextWord) → IsSaid text (word_of word.entry ∷ left) self.old → IsSaid text left self.new) }
        ensures fault { IfErr result (λ e. e ≢ VcdError.NoMemory
            → (text : List ℕ) (left : List TextWord) → IsSaid text (word_of word.entry ∷ left) self.old → Fails text e) }
    {
        let Some((kind, to)) = exit_of(self.state, word.text) else {
            return Err(VcdError::Form { place: word.place });
        };
        self.take(kind, word)?;
        self.state = to;
        self.last = word;
        Ok(())
    }

    /// Takes the next word of a text.
    #[inline(always)]
    pub fn step(&mut self, word: Word<'s>) -> Result<(), VcdError>
        requires { (text : List ℕ) × (left : List TextWord) × IsSaid text (word_of word ∷ left) self.old }
        ensures on { OnOk result ((text : List ℕ) (left : List TextWord) → IsSaid text (word_of word.entry ∷ left) self.old → IsSaid text left self.new) }
        ensures fault { IfErr result (λ e. e ≢ VcdError.NoMemory
            → (text : List ℕ) (left : List TextWord) → IsSaid text (word_of word.entry ∷ left) self.old → Fails text e) }
    {
        if let Some(number) = self.changed(word.text) {
            self.scalar(word, Some(number))?;
            self.state = State::Entries;
            self.last = word;
            return Ok(());
        }
        if is_number(self.state, word.text) {
            self.number(word);
            self.state = State::Taker;
            self.last = word;
            return Ok(());
        }
        if let Some(number) = self.taken(word.text) {
            self.taker(word, Some(number))?;
            self.state = State::Entries;
            self.last = word;
            return Ok(());
        }
        self.other_step(word)
    }

    /// The table of a text that ends here, or its first problem.
    pub fn end(self, alloc: Global, place: Place) -> Result<Waves, VcdError>
        requires { (text : List ℕ) × IsSaid text [] self × (place.0 ≡ length text) × (length text < 2 ^ 32) }
        ensures table { IfOk result (λ w. (text : List ℕ) → IsSaid text [] self.entry → IsTable text w.pins w.rows) }
        ensures problem { IfErr result (λ e. e ≢ VcdError.NoMemory
            → (text : List ℕ) → IsSaid text [] self.entry → place.0 ≡ length text → Fails text e) }
    {
        let Said {
            variables,
            mut rows,
            state,
            last: _,
        } = self;
        let State::Entries = state else {
            return Err(VcdError::Form { place });
        };
        rows.close(&variables.now)?;
        if let Some(pin) = rows.missing {
            return Err(VcdError::NoValue { pin: pin as u32 });
        }
        let pins = pins_of(alloc, &variables.names, &variables.widths)?;
        Ok(Waves {
            pins,
            values: rows.values,
            rows: rows.times,
        })
    }
}
