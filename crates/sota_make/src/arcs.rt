// The arcs of a network.
ghost use Rattle.std.specs.Prelude.{◌≡◌, ◌≤◌, IfOk};
ghost use Rattle.sota_make.specs.Made.{made_ends, made_arc, made_arcs};

use crate::times::made_time;
use sota_network::Arc;
use sota_units::{NoMemory, NodeId};
use sota_words::Words;
use std::alloc::Global;

/// So many arcs, of which the first ones make a ring.
pub(crate) fn made_arcs(
    alloc: Global,
    words: &mut Words,
    nodes: u32,
    arcs: u32,
    span: u32,
) -> Result<Vec<Arc>, NoMemory>
    requires nodes { (1 ≤ nodes) × (nodes ≤ 10000) }
    requires arcs { arcs ≤ 100000 }
    requires span { (1 ≤ span) × (span ≤ 1000) }
    ensures { IfOk result (λ list. list.items ≡ made_arcs nodes span arcs 1 words.old) }
{
    let mut list = Vec::with_capacity(alloc, arcs as usize)?;
    for index in 0..arcs {
        list.push(made_arc(alloc, words, nodes, index + 1, span)?)?;
    }
    Ok(list)
}

/// The arc of a number.
fn made_arc(
    alloc: Global,
    words: &mut Words,
    nodes: u32,
    number: u32,
    span: u32,
) -> Result<Arc, NoMemory>
    requires nodes { (1 ≤ nodes) × (nodes ≤ 10000) }
    requires span { (1 ≤ span) × (span ≤ 1000) }
    ensures { IfOk result (λ arc. (arc, words.new) ≡ made_arc nodes span number words.old) }
{
    let (tail, head) = made_ends(words, nodes, number);
    let time = made_time(alloc, words, span)?;
    Ok(Arc { tail, head, time })
}

/// The tail and the head of the arc of a number: the ring goes from each node to the next, and all
/// arcs after it go anywhere.
fn made_ends(words: &mut Words, nodes: u32, number: u32) -> (NodeId, NodeId)
    requires { (1 ≤ nodes) × (nodes ≤ 10000) }
    ensures { (result, words.new) ≡ made_ends nodes number words.old }
{
    if number <= nodes {
        return (NodeId(number), NodeId(number % nodes + 1));
    }
    let tail = 1 + words.draw_below(nodes);
    let head = 1 + words.draw_below(nodes);
    (NodeId(tail), NodeId(head))
}
