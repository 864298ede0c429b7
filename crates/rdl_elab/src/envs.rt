//! What is visible in open bodies.

ghost use Rattle.std.specs.Prelude.{◌≡◌, ◌<◌, ◌∷◌, Some, IfOk, OnOk, length, map, slice_get};
ghost use Rattle.rdl_values.specs.Bodies.{Body as BodyOf, around};
ghost use Rattle.rdl_values.specs.Seen.{around_of, bound_of};
ghost use Rattle.rdl_values.specs.Tabled.{listed_in};
ghost use Rattle.rdl_bodies.specs.Sited.{IsOpenAs, own_names, values_over};
ghost use Rattle.rdl_bodies.specs.declared.bodies.Body.{Body as OpenBody};
ghost use Rattle.rdl_elab.specs.Envs.{AreEnvs, round};
ghost use Rattle.rdl_elab.specs.Nodes.{CanShow};

use bumpalo::Bump;
use rb_base::NoMemory;
use rdl_bodies::{Bodies, Body, all_values};
use rdl_tree::{Bound, Env};
use std::alloc::Global;

// The environment of the nearest of the bodies round a text: the second of the numbers of the text's body is its number.
fn env_round<'a>(envs: &[&'a Env<'a>], numbers: &[usize]) -> Option<&'a Env<'a>>
    ensures { result ≡ round envs.now numbers.now }
{
    let Some(nearest) = numbers.get(1) else {
        return None;
    };
    envs.get(*nearest).copied()
}

// All values of a body's parameters, in the arena.
fn values_in<'a>(
    alloc: Global,
    arena: &'a Bump,
    body: &Body<'_, 'a>,
) -> Result<&'a [Bound<'a>], NoMemory>
    ensures { IfOk result (λ r. map bound_of r.now ≡ values_over body.now.params.now body.now.touched.now) }
{
    let values = all_values(alloc, body.params, body.touched)?;
    let copy = arena.try_alloc_slice_copy(&values)?;
    Ok(copy)
}

// An environment in the arena.
fn env_in<'a>(
    alloc: Global,
    arena: &'a Bump,
    body: &Body<'_, 'a>,
    outer: Option<&'a Env<'a>>,
) -> Result<&'a Env<'a>, NoMemory>
    ensures { IfOk result (λ e. around_of e.now ≡ own_names body.now ∷ listed_in outer.entry) }
{
    let bound = values_in(alloc, arena, body)?;
    let env = arena.try_alloc(Env {
        bound,
        enums: body.enums,
        outer,
    })?;
    Ok(env)
}

/// Puts the environments of the bodies that have none yet behind those of the others.
pub(crate) fn add_envs<'a>(
    alloc: Global,
    arena: &'a Bump,
    bodies: &Bodies<'_, 'a>,
    envs: &mut Vec<&'a Env<'a>>,
) -> Result<(), NoMemory>
    requires { AreEnvs bodies.now.list.items envs.old.items }
    ensures known { OnOk result (AreEnvs bodies.now.list.items envs.new.items) }
    ensures all { OnOk result (length envs.new.items ≡ length bodies.now.list.items) }
{
    'bodies: while let Some(body) = bodies.body(envs.len()) {
        let outer = env_round(envs, body.numbers);
        let env = env_in(alloc, arena, &body, outer)?;
        envs.push(env)?;
    }
    Ok(())
}

// The environment of a number.
fn env_at<'a>(envs: &[&'a Env<'a>], number: usize) -> &'a Env<'a>
    requires { number < length envs.now }
    ensures { slice_get envs.now number ≡ Some result }
{
    envs[number]
}

/// What is visible in a body: the nearest of those that it shows is its own.
pub(crate) fn env_of<'a>(
    bodies: &Bodies<'_, 'a>,
    envs: &[&'a Env<'a>],
    number: usize,
) -> &'a Env<'a>
    requires some { CanShow bodies.now number }
    requires known { AreEnvs bodies.now.list.items envs.now }
    requires all { length envs.now ≡ length bodies.now.list.items }
    ensures { (x : OpenBody) (b : BodyOf) → slice_get bodies.now.list.items number ≡ Some x → IsOpenAs bodies.now x b → around_of result.now ≡ b.names ∷ around b.outer }
{
    let Some(body) = bodies.body(number) else {
        unreachable!()
    };
    env_at(envs, body.numbers[0])
}
