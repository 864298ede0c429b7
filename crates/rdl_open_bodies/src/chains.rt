//! The nodes whose bodies are round a text.

ghost use Rattle.std.specs.Prelude.{◌≡◌, ◌-◌, [], ◌∷◌, None, Some, IfOk, drop, length};
ghost use Rattle.rdl_open_bodies.specs.Starts.{first_or_root};

use bumpalo::Bump;
use bumpalo::collections::into_bump_slice;
use rb_base::NoMemory;

/// The last so many of them.
pub(crate) fn last_of<'c>(chain: &'c [Option<u32>], depth: usize) -> &'c [Option<u32>]
    ensures { result.now ≡ drop (length chain.now - depth) chain.now }
{
    let skipped = chain.len().saturating_sub(depth);
    &chain[skipped..]
}

/// The nearest.
pub(crate) fn nearest_of(chain: &[Option<u32>]) -> Option<u32>
    ensures { result ≡ first_or_root chain.now }
{
    match chain {
        [nearest, ..] => *nearest,
        [] => None,
    }
}

/// A node before others.
pub(crate) fn chain_behind<'s>(
    scratch: &'s Bump,
    node: u32,
    chain: &[Option<u32>],
) -> Result<&'s [Option<u32>], NoMemory>
    ensures { IfOk result (λ r. r.now ≡ Some node ∷ chain.now) }
{
    let mut list = Vec::with_capacity(scratch, chain.len().saturating_add(1))?;
    list.push(Some(node))?;
    for round in chain {
        list.push(*round)?;
    }
    Ok(into_bump_slice(list))
}

/// The root alone.
pub(crate) fn root_chain<'s>(scratch: &'s Bump) -> Result<&'s [Option<u32>], NoMemory>
    ensures { IfOk result (λ r. r.now ≡ None ∷ []) }
{
    let mut list: Vec<Option<u32>, &'s Bump> = Vec::new(scratch);
    list.push(None)?;
    Ok(into_bump_slice(list))
}
