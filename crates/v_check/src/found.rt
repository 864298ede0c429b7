//! The least place of a problem.

ghost use Rattle.std.specs.Prelude.{◌≡◌};
ghost use Rattle.v_check.specs.Found.{either_found, noted};

use rb_base::Place;

/// The least place of a problem, once one more place is judged.
pub(crate) fn note(found: Option<Place>, wrong: bool, place: Place) -> Option<Place>
    ensures { result ≡ noted found wrong place }
{
    if !wrong {
        return found;
    }
    match found {
        Some(earlier) => {
            if earlier.0 <= place.0 {
                Some(earlier)
            } else {
                Some(place)
            }
        }
        None => Some(place),
    }
}

/// The lesser of two places.
pub(crate) fn either(one: Option<Place>, other: Option<Place>) -> Option<Place>
    ensures { result ≡ either_found one other }
{
    match other {
        Some(place) => note(one, true, place),
        None => one,
    }
}
