//! A tree that grows.

ghost use Rattle.std.specs.Prelude.{◌≡◌, ◌+◌, ◌^◌, IfOk, OnErr};

use rb_base::NoMemory;
use rdl_tree::Env;
use rdl_walk::Walk;

/// The walk whose bodies the tree is made of, the environments of the first bodies, and how many nodes there are so far.
#[derive(Drop)]
pub(crate) struct Growing<'s, 'a> {
    pub walk: Walk<'s, 's, 'a>,
    pub envs: Vec<&'a Env<'a>>,
    pub count: u32,
}

impl<'s, 'a> Growing<'s, 'a> {
    /// The number of the next node. The only error is a number behind which a u32 has none.
    pub(crate) fn number(&mut self) -> Result<u32, NoMemory>
        ensures walk { self.new.walk ≡ self.old.walk }
        ensures envs { self.new.envs ≡ self.old.envs }
        ensures number { IfOk result (λ k. k ≡ self.old.count) }
        ensures next { IfOk result (λ k. self.new.count ≡ self.old.count + 1) }
        ensures over { OnErr result (self.old.count + 1 ≡ 2 ^ 32) }
    {
        let number = self.count;
        // No memory holds so many nodes.
        let Some(next) = number.checked_add(1) else {
            return Err(NoMemory);
        };
        self.count = next;
        Ok(number)
    }
}
