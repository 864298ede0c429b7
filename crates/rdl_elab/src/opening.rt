//! What an open body says of its nodes.

ghost use Rattle.std.specs.Prelude.{◌≡◌, Some, slice_get, IfOk, OnOk};
ghost use Rattle.rdl_values.specs.Instances.{Instance};
ghost use Rattle.rdl_bodies.specs.Sited.{IsAt};
ghost use Rattle.rdl_bodies.specs.declared.bodies.Site.{Site as SiteOf};

use crate::envs::{add_envs, env_of};
use crate::growing::Growing;
use bumpalo::Bump;
use rb_base::NoMemory;
use rdl_tree::{Def, Env};
use std::alloc::Global;

/// The body of a site: its number, its definition, and what is visible in it.
#[derive(Clone, Copy)]
pub(crate) struct Opened<'a> {
    pub number: usize,
    pub def: &'a Def<'a>,
    pub env: &'a Env<'a>,
}

impl<'s, 'a> Growing<'s, 'a> {
    ghost use Rattle.rdl_bodies.specs.Opened.{CanOpen};
    ghost use Rattle.rdl_elab.specs.Envs.{AreEnvs};
    ghost use Rattle.rdl_elab.specs.Grown.{AreGrowing};
    ghost use Rattle.rdl_elab.specs.Nodes.{IsShown};

    /// The body of a site.
    pub(crate) fn open(
        &mut self,
        alloc: Global,
        arena: &'a Bump,
        site: usize,
    ) -> Result<Opened<'a>, NoMemory>
        requires growing { AreGrowing self.old }
        requires some { CanOpen self.old.walk.bodies site }
        ensures count { self.new.count ≡ self.old.count }
        ensures envs { OnOk result (AreEnvs self.new.walk.bodies.list.items self.new.envs.items) }
        ensures opened { IfOk result (λ o. (s : SiteOf) (n : Instance) → slice_get self.old.walk.bodies.sites.items site ≡ Some s → IsAt self.old.walk.bodies s n.closure n.bound → IsShown self.old.walk self.new.walk o n) }
    {
        let walk = &mut self.walk;
        let number = walk.bodies.open(alloc, arena, site, &mut walk.failures)?;
        add_envs(alloc, arena, &walk.bodies, &mut self.envs)?;
        let env = env_of(&walk.bodies, &self.envs, number);
        let Some(of) = walk.bodies.site(site) else {
            unreachable!()
        };
        Ok(Opened {
            number,
            def: of.def,
            env,
        })
    }
}
