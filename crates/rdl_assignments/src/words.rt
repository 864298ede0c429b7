//! Words as values of properties.

ghost use Rattle.std.specs.Prelude.{◌≡◌, ℕ, IfSome, option_map};
ghost use Rattle.rdl_values.specs.Bodies.{Scope};
ghost use Rattle.rdl_layers.specs.Forms as forms;
ghost use Rattle.rdl_assignments.specs.Meant.{StandsIn, meaning_in};

use rdl_base::Keyword;
use rdl_layers::Setting;
use rdl_props::Form;

// A mode of addressing (SystemRDL 2.0, 13.4).
fn addressing_word(word: Keyword) -> Option<Keyword>
    ensures { result ≡ forms.addressing_word word }
{
    match word {
        Keyword::Compact | Keyword::Regalign | Keyword::Fullalign => Some(word),
        _ => None,
    }
}

// What hardware may do (SystemRDL 2.0, 9.4).
fn hw_word(word: Keyword) -> Option<Keyword>
    ensures { result ≡ forms.hw_word word }
{
    match word {
        Keyword::Rw | Keyword::Wr => Some(Keyword::Rw),
        Keyword::R | Keyword::W | Keyword::Na => Some(word),
        _ => None,
    }
}

// What software may do (SystemRDL 2.0, 9.4).
fn sw_word(word: Keyword) -> Option<Keyword>
    ensures { result ≡ forms.sw_word word }
{
    match word {
        Keyword::Rw1 | Keyword::W1 => Some(word),
        _ => hw_word(word),
    }
}

// The effect of a write (SystemRDL 2.0, 9.6).
fn write_word(word: Keyword) -> Option<Keyword>
    ensures { result ≡ forms.write_word word }
{
    match word {
        Keyword::Woset | Keyword::Woclr | Keyword::Wot | Keyword::Wzs => Some(word),
        Keyword::Wzc | Keyword::Wzt | Keyword::Wclr | Keyword::Wset => Some(word),
        _ => None,
    }
}

// The effect of a read (SystemRDL 2.0, 9.6).
fn read_word(word: Keyword) -> Option<Keyword>
    ensures { result ≡ forms.read_word word }
{
    match word {
        Keyword::Rclr | Keyword::Rset => Some(word),
        _ => None,
    }
}

// A word as a setting.
fn named<'a>(word: Option<Keyword>) -> Option<Setting<'a>>
    ensures outcome { (scope : Scope) → option_map (meaning_in scope) result ≡ option_map forms.named word }
    ensures stands { (body : ℕ) → IfSome result (StandsIn body) }
{
    match word {
        Some(word) => Some(Setting::Word(word)),
        None => None,
    }
}

/// What a word is where a value of this form is taken, if it is one; `wr` is `rw`.
pub(crate) fn word_in<'a>(form: Form, word: Keyword) -> Option<Setting<'a>>
    ensures outcome { (scope : Scope) → option_map (meaning_in scope) result ≡ forms.from_word form word }
    ensures stands { (body : ℕ) → IfSome result (StandsIn body) }
{
    match form {
        Form::AddressingWord => named(addressing_word(word)),
        Form::SwWord => named(sw_word(word)),
        Form::HwWord => named(hw_word(word)),
        Form::WriteWord => named(write_word(word)),
        Form::ReadWord => named(read_word(word)),
        _ => None,
    }
}
