// A link made, and what it hears.
ghost use Rattle.std.specs.Prelude.{◌≡◌};
ghost use Rattle.network.specs.Network.{blocks_of};
ghost use Rattle.framelink.specs.Views.{view_of, new_view, heard_at, gone_on};

use crate::fault::LinkFault;
use crate::frame::{self, Heard};
use crate::link::{FrameLink, MOST};
use crate::train::Train;
use network::network::Network;
use table::Table;
use trackside::answers::Stand;
use trackside::plant::Plant;

impl<'a> FrameLink<'a> {
    // A yard without trains, its lamps red and its points left. A network of more blocks than a link carries is not built.
    pub fn new(network: Network, bytes: &'a [u8]) -> FrameLink<'a>
        ensures { view_of result ≡ new_view (blocks_of network) bytes.now }
    {
        let carried = if network.len() <= MOST {
            network
        } else {
            Network::new()
        };
        let nowhere = Stand {
            block: 0,
            entered: 0,
        };
        FrameLink {
            plant: Plant::new(carried),
            bytes,
            at: 0,
            trains: Table::new(Train::new(nowhere)),
        }
    }

    // Reads the frame at the offset, and goes behind it. Nothing of a frame that is cut short is skipped.
    pub(crate) fn hear(&mut self) -> Result<Option<Heard>, LinkFault>
        ensures heard { result ≡ heard_at (view_of self.old) }
        ensures view { view_of self.new ≡ gone_on (view_of self.old) }
    {
        let at = self.at;
        let Some(payload) = frame::payload(self.bytes, at)? else {
            return Ok(None);
        };
        self.at = at + 2 + payload.len();
        Ok(Some(frame::hear(payload, at, self.plant.block_count())?))
    }
}
