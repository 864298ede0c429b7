//! How many bodies an environment has.

ghost use Rattle.std.specs.Prelude.{◌≡◌, ◌≤◌, ◌^◌, IfNone, IfSome, length};
ghost use Rattle.rdl_values.specs.Seen.{around_of};

use rdl_tree::Env;

/// How many bodies an environment has. None where there are 2^64 or more.
pub fn depth_of(env: &Env<'_>) -> Option<usize>
    ensures depth { IfSome result (λ d. d ≡ length (around_of env.now)) }
    ensures none { IfNone result (2 ^ 64 ≤ length (around_of env.now)) }
{
    let Some(outer) = env.outer else {
        return Some(1);
    };
    let round = depth_of(outer)?;
    round.checked_add(1)
}
