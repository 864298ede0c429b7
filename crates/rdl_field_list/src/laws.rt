//! The widths of a counter's pins.

ghost use Rattle.std.specs.Prelude.{List};
ghost use Rattle.rdl_values.specs.Instances.{Instance};
ghost use Rattle.rdl_values.specs.Lineages.{Lineage};
ghost use Rattle.rdl_feeds.specs.Narrow.{AreNarrow};
ghost use Rattle.rdl_sound_laws.specs.Faultless.{IsFaultless};

/// A field of which no rule fails has no pin that is wider than a byte tells.
pub fn faultless_is_narrow()
    ensures { (all : List Lineage) (f : Instance) → IsFaultless all f → AreNarrow f }
{}
