// A network that is being drawn, block by block.
ghost use Rattle.std.specs.Prelude.{◌≡◌, []};
ghost use Rattle.network.specs.Drawing.{add_to};
ghost use Rattle.network.specs.Network.{blocks_of};

use crate::drawing::Limit;
use crate::network::Network;
use crate::track::{Block, Joint};
use table::Table;

impl Network {
    // A network of no blocks.
    pub fn new() -> Network
        ensures { blocks_of result ≡ [] }
    {
        Network {
            blocks: Table::new(Block::Plain(Joint::Outer, Joint::Outer)),
        }
    }

    pub(crate) fn push(&mut self, block: Block) -> Result<(), Limit>
        ensures { (result, blocks_of self.new) ≡ add_to (blocks_of self.old) block }
    {
        self.blocks.push(block).map_err(|_| Limit::Blocks)
    }
}
