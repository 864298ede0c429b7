//! Ranks that things may lack.

use std::marker::Model;

/// The code of no rank.
const NONE: u32 = 4_294_967_295;

/// A rank below 2^32 - 1, or none, in four bytes. Contracts see the option.
#[derive(Clone, Copy)]
pub struct Rank {
    code: u32,
}

impl Model for Rank {
    ghost use Rattle.std.specs.Prelude.{ℕ, Option};
    ghost use Rattle.std.proofs.Common.{ap};
    ghost use Rattle.topological_order.specs.Ranks.{code-itself, code_of, coded_rank};

    ghost Value = { Option ℕ };

    ghost view = { λ r. coded_rank r.code };

    ghost inverse = { λ rank. record { code = code_of rank } };

    ghost inverse_ok = { λ r h. ap (λ code. record { code = code }) (code-itself r.code) };
}

impl Rank {
    ghost use Rattle.std.specs.Prelude.{◌≡◌, ◌+◌, ◌<◌, ◌^◌, None, Some, is_some, not};

    /// No rank.
    pub fn none() -> Rank
        ensures { result ≡ None }
    {
        Rank { code: NONE }
    }

    /// A rank.
    pub fn of(number: u32) -> Rank
        requires { number + 1 < 2 ^ 32 }
        ensures { result ≡ Some number }
    {
        Rank { code: number }
    }

    /// Whether there is none.
    pub fn is_none(self) -> bool
        ensures { is_some self ≡ not result }
    {
        self.code == NONE
    }

    /// The rank, if there is one.
    pub fn get(self) -> Option<u32>
        ensures { result ≡ self }
    {
        if self.code == NONE {
            None
        } else {
            Some(self.code)
        }
    }
}
