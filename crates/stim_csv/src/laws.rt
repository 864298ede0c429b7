//! What the definitions determine.

ghost use Rattle.std.specs.Prelude.{◌≡◌, ◌≢◌, ℕ, ◌<◌, ◌^◌, Ok, AllPairs, List};
ghost use Rattle.std.specs.List.{AllByRecursion, AllZip};
ghost use Rattle.rb_base.specs.declared.ports.Pin.{Pin};
ghost use Rattle.stim_csv.specs.PinTable.{Cells, table_of};

/// Each vector of a table has one number for each pin, which fits it.
pub fn vectors_fit()
    ensures { (pins : List Pin) → AllPairs (λ p q. p.name ≢ q.name) pins → (outputs : ℕ) (records : List Cells) (vectors : List (List ℕ))
        → table_of pins outputs records ≡ Ok vectors
        → AllByRecursion (λ vector. AllZip (λ p x. x < 2 ^ p.width) pins vector) vectors }
{}
