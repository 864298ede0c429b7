//! Which word has an address.

ghost use Rattle.std.specs.Prelude.{◌≡◌, IfOk, map};
ghost use Rattle.rtl_net.specs.Net.{Grows, Stands};
ghost use Rattle.rb_model.specs.Sound.{IsSound};
ghost use Rattle.gen_ports.specs.Found.{FindsWord};

use gen_decode::{Decoded, decode};
use rb_base::NoMemory;
use rb_model::{Block, Word};
use rtl_net::{Id, Netlist};
use std::alloc::Global;

/// The addresses of words.
fn addresses(alloc: Global, words: &[Word]) -> Result<Vec<u32>, NoMemory>
    ensures { IfOk result (λ all. all.items ≡ map (λ w. w.address) words.now) }
{
    let mut all = Vec::new(alloc);
    for word in words {
        all.push(word.address)?;
    }
    Ok(all)
}

/// Decodes an address of 32 bits: whether it is that of a word of a block, and the number of the word, which reads and writes share.
/// The only error is want of memory, after which the netlist has some of the nodes.
pub fn word_node(
    alloc: Global,
    net: &mut Netlist,
    block: &Block,
    address: Id,
) -> Result<Decoded, NoMemory>
    requires sound { IsSound block.now }
    requires address { Stands net.old address 32 }
    ensures older { Grows net.old net.new }
    ensures name { net.new.name ≡ net.old.name }
    ensures word { IfOk result (FindsWord block.now net.new address) }
{
    let words = addresses(alloc, &block.reads.items)?;
    let found = decode(net, address, &words)?;
    Ok(found)
}
