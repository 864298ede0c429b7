//! What the definitions determine.
ghost use Rattle.std.specs.Prelude.{◌≡◌, ◌⊎◌, ℕ, ◌+◌, ◌-◌, ◌^◌, ◌<◌, ◌≤◌};
ghost use Rattle.std.specs.Int.{bit_at};
ghost use Rattle.rb_base.specs.Bits.{part, put};

/// A part has the bits of the number, and no others.
pub fn bits_of_part()
    ensures bits { (v hi lo k : ℕ) → lo ≤ hi → k ≤ hi - lo
        → bit_at (part v hi lo) k ≡ bit_at v (lo + k) }
    ensures within { (v hi lo : ℕ) → part v hi lo < 2 ^ (hi - lo + 1) }
{}

/// What was put stands where it was put, all other bits stay, and no bit is added.
pub fn bits_of_put()
    ensures part { (v hi lo x : ℕ) → lo ≤ hi → x < 2 ^ (hi - lo + 1)
        → part (put v hi lo x) hi lo ≡ x }
    ensures others { (v hi lo x k : ℕ) → lo ≤ hi → x < 2 ^ (hi - lo + 1) → (k < lo) ⊎ (hi < k)
        → bit_at (put v hi lo x) k ≡ bit_at v k }
    ensures within { (w v hi lo x : ℕ) → lo ≤ hi → hi < w → v < 2 ^ w → x < 2 ^ (hi - lo + 1)
        → put v hi lo x < 2 ^ w }
{}
