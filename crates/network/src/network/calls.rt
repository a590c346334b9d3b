ghost use Rattle.std.specs.Prelude.{◌≡◌, length};
ghost use Rattle.std.specs.List.{slice_get};
ghost use Rattle.network.specs.Joints.{joint_of};
ghost use Rattle.network.specs.Network.{blocks_of};

use crate::network::Network;
use crate::track::{Block, Joint};

impl Network {
    // How many blocks there are.
    pub fn len(&self) -> usize
        ensures { result ≡ length (blocks_of self.now) }
    {
        self.blocks.len()
    }

    // The blocks, in the order of their numbers.
    pub fn blocks(&self) -> &[Block]
        ensures { result.now ≡ blocks_of self.now }
    {
        self.blocks.as_slice()
    }

    // The block of a number, or none.
    pub fn block(&self, number: u8) -> Option<Block>
        ensures { result ≡ slice_get (blocks_of self.now) number }
    {
        self.blocks().get(number as usize).copied()
    }

    // The joint at an end of a block, or none where there is no such block or end.
    pub(crate) fn joint(&self, block: u8, end: u8) -> Option<Joint>
        ensures { result ≡ joint_of (blocks_of self.now) block end }
    {
        self.block(block)?.joint(end)
    }
}
