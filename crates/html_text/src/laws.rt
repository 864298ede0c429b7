//! What the definitions determine.

ghost use Rattle.std.specs.Prelude.{◌≡◌, ℕ, List, true};
ghost use Rattle.std.specs.List.{list_all};
ghost use Rattle.html_text.specs.Escaped.{escaped};
ghost use Rattle.html_text.specs.Safe.{is_safe};

/// Whatever the bytes of a text of the source are, on the page they end no element and no attribute, and begin none.
pub fn text_is_safe()
    ensures { (bytes : List ℕ) → list_all is_safe (escaped bytes) ≡ true }
{}
