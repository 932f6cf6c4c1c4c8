// The head of a policy.
ghost use Rattle.std.specs.Prelude.{◌≡◌, ◌≤◌, length, IsTrue, IfOk, IfErr, OnOk, None, Some};
ghost use Rattle.sota_polfile.specs.Table.{IsHead};
ghost use Rattle.sota_polfile.specs.Places.{head_at};
ghost use Rattle.sota_polfile.specs.Faults.{is_head, head_fault};

use crate::{PolicyFault, places};
use sota_units::{BUDGET_LIMIT, NODE_LIMIT, SCALE_LIMIT};

/// Whose policy it is: numbers of nodes are from 1 to `nodes`.
#[derive(Clone, Copy, Debug, PartialEq, Eq)]
pub struct PolicyHead {
    /// The network's number of nodes, from 1 to 1,000,000.
    pub nodes: u32,
    /// The destination.
    pub dest: u32,
    /// The origin.
    pub origin: u32,
    /// The budget at the origin in ticks, at most 65,535.
    pub budget: u32,
    /// The denominator of the network's masses, from 1 to 1,000,000,000.
    pub scale: u32,
}

/// Whose bracket table it is: both versions have the same head.
pub type BracketHead = PolicyHead;

impl PolicyHead {
    #[tactic(auto, using(crate::proofs::Rules::head_fits))]
    pub(crate) fn is_in_range(&self) -> bool
        ensures value { result ≡ is_head self.now }
        ensures valid { IsTrue result → IsHead self.now }
    {
        (1..=NODE_LIMIT).contains(&self.nodes)
            && (1..=self.nodes).contains(&self.dest)
            && (1..=self.nodes).contains(&self.origin)
            && self.budget <= BUDGET_LIMIT
            && (1..=SCALE_LIMIT).contains(&self.scale)
    }
}

/// The head of a file that begins with this magic and has a head of this length, or the first fault
/// of what stands there.
pub(crate) fn read_head(bytes: &[u8], magic: &[u8], front: usize) -> Result<PolicyHead, PolicyFault>
    requires { 28 ≤ front }
    ensures head { IfOk result (λ head. head ≡ head_at bytes.now) }
    ensures long { OnOk result (front ≤ length bytes.now) }
    ensures none { OnOk result (head_fault magic.now front bytes.now ≡ None) }
    ensures fault { IfErr result (λ fault. head_fault magic.now front bytes.now ≡ Some fault) }
{
    if !bytes.starts_with(magic) {
        return Err(PolicyFault::Magic);
    }
    if bytes.len() < front {
        return Err(PolicyFault::Truncated(0));
    }
    let head = places::head_at(bytes);
    if !head.is_in_range() {
        return Err(PolicyFault::Range(0));
    }
    Ok(head)
}
