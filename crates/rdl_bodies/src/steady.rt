//! Enumerations that are the same in all bodies of a text.

ghost use Rattle.std.specs.Prelude.{◌≡◌, true};
ghost use Rattle.rdl_bodies.specs.Steady.{AreFixed, IsFixed};

use crate::bodies::Bodies;
use rdl_closed::are_closed;
use rdl_tree::Item;

// Whether no entry's value of the enumeration that an item defines names anything.
fn is_fixed(item: &Item<'_>) -> bool
    ensures { result ≡ true → IsFixed item.now }
{
    match item {
        Item::EnumDef { entries, .. } => are_closed(entries),
        _ => true,
    }
}

/// Whether no entry's value of the enumerations among some items names anything.
pub(crate) fn are_fixed(items: &[Item<'_>]) -> bool
    ensures { result ≡ true → AreFixed items.now }
{
    for item in items {
        if !is_fixed(item) {
            return false;
        }
    }
    true
}

impl<'s, 'a> Bodies<'s, 'a> {
    ghost use Rattle.std.specs.Prelude.{◌≡◌, true};
    ghost use Rattle.rdl_bodies.specs.Alike.{AreSteady, IsSteady};

    // Whether this holds of the text of the body of a number.
    fn is_steady(&self, number: usize) -> bool
        ensures { result ≡ true → IsSteady self.now number }
    {
        let Some(body) = self.list.get(number) else {
            return false;
        };
        match self.texts.get(body.text) {
            Some(text) => text.steady,
            None => false,
        }
    }

    /// Whether no value of an entry of the enumerations of these bodies names anything: then they are the same in all bodies of their texts.
    pub fn are_steady(&self, numbers: &[usize]) -> bool
        ensures { result ≡ true → AreSteady self.now numbers.now }
    {
        for number in numbers {
            if !self.is_steady(*number) {
                return false;
            }
        }
        true
    }
}
