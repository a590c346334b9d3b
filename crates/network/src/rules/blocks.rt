// The rules that each block must meet.
ghost use Rattle.std.specs.Prelude.{◌≡◌};
ghost use Rattle.std.specs.List.{slice_get};
ghost use Rattle.network.specs.Track.{ends_of};
ghost use Rattle.network.specs.Network.{blocks_of};
ghost use Rattle.network.specs.Joints.{joint_exists, all_exist, outer_ends_fit, passes, far_end, towards, mutual_at, all_mutual};
ghost use Rattle.network.specs.Judge.{block_meets, block_breaks, kept};

use crate::network::Network;
use crate::rules::{BlockRule, Broken};
use crate::track::{Block, Joint};

fn outer_ends_fit(block: Block) -> bool
    ensures { result ≡ outer_ends_fit block }
{
    let outer = Joint::Outer;
    match block {
        Block::Plain(a, b) => !(a == outer && b == outer),
        Block::Point(a, b, c) => ![a, b, c].contains(&outer),
        Block::Crossing(a, b, c, d) => ![a, b, c, d].contains(&outer),
    }
}

// The end of block `next` to which an end of a block is joined.
fn far_end(block: Block, end: u8, next: u8) -> Option<u8>
    ensures { result ≡ far_end next (slice_get (ends_of block) end) }
{
    match block.joint(end) {
        Some(Joint::Joined { block, end }) if block == next => Some(end),
        _ => None,
    }
}

// The first end of a block that is joined to block `next`, and the end of `next` there.
pub(crate) fn towards(block: Block, next: u8) -> Option<(u8, u8)>
    ensures { result ≡ towards block next }
{
    // not by `find_map`: with it the check leaves the goal open
    for end in 0..4u8 {
        if let Some(far) = far_end(block, end, next) {
            return Some((end, far));
        }
    }
    None
}

// A block of a network, where it stands.
#[derive(Clone, Copy)]
struct Site<'a> {
    network: &'a Network,
    number: u8,
    block: Block,
}

impl Site<'_> {
    // Is the joint at `end`, where there is one, to an existing end?
    fn exists_at(&self, end: u8) -> bool
        ensures { result ≡ passes (joint_exists (blocks_of self.now.network.now)) self.now.block end }
    {
        match self.block.joint(end) {
            Some(Joint::Joined { block, end }) => self.network.joint(block, end).is_some(),
            _ => true,
        }
    }

    fn all_exist(&self) -> bool
        ensures { result ≡ all_exist (blocks_of self.now.network.now) self.now.block }
    {
        (0..4u8).all(|end| self.exists_at(end))
    }

    // Is the joint at `end`, where there is one, mutual, to another block, and the first one there?
    fn mutual_at(&self, end: u8) -> bool
        ensures { result ≡ passes (mutual_at (blocks_of self.now.network.now) self.now.number self.now.block end) self.now.block end }
    {
        let Some(
            Joint::Joined {
                block: other,
                end: far,
            },
        ) = self.block.joint(end)
        else {
            return true;
        };
        let here = Joint::Joined {
            block: self.number,
            end,
        };
        let back = self.network.joint(other, far) == Some(here);
        let near = towards(self.block, other).map(|(near, _)| near);
        back && other != self.number && near == Some(end)
    }

    fn all_mutual(&self) -> bool
        ensures { result ≡ all_mutual (blocks_of self.now.network.now) self.now.number self.now.block }
    {
        (0..4u8).all(|end| self.mutual_at(end))
    }

    fn meets(&self, rule: BlockRule) -> bool
        ensures { result ≡ block_meets (blocks_of self.now.network.now) rule self.now.number self.now.block }
    {
        // a switch and no closure: what is asked is also what a refusal names
        match rule {
            BlockRule::JointsExist => self.all_exist(),
            BlockRule::OuterEnds => outer_ends_fit(self.block),
            BlockRule::JointsMutual => self.all_mutual(),
        }
    }
}

// The first block that breaks a rule.
fn first_break(network: &Network, rule: BlockRule) -> Option<u8>
    ensures { result ≡ block_breaks (blocks_of network.now) rule }
{
    // not by `find`: over the numbered blocks it is as long as this, and gives a pair that the number has to be taken from
    for (i, block) in network.blocks.as_slice().iter().enumerate() {
        let site = Site {
            network,
            number: i as u8,
            block: *block,
        };
        if !site.meets(rule) {
            return Some(site.number);
        }
    }
    None
}

// Goes on where all blocks meet a rule.
pub(crate) fn keep(network: &Network, rule: BlockRule) -> Result<(), Broken>
    ensures { result ≡ kept rule (block_breaks (blocks_of network.now) rule) }
{
    first_break(network, rule).map_or(Ok(()), |block| Err(Broken::Block { rule, block }))
}
