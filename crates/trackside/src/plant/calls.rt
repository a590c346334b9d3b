// What can be seen of a plant.
ghost use Rattle.std.specs.Prelude.{◌≡◌, length};
ghost use Rattle.network.specs.Network.{blocks_of};
ghost use Rattle.trackside.specs.Ground.{lamp_of};
ghost use Rattle.trackside.specs.Plants.{stored, new_plant, kind_at, joint_at, lies_at, green_at, lamp_at, way_at};

use crate::answers::Lamp;
use crate::plant::{Plant, Setting};
use network::network::Network;
use network::track::{Joint, Kind, Position};
use network::ways::way;

impl Plant {
    // All points lie left and all lamps are red.
    pub fn new(network: Network) -> Plant
        ensures { stored result ≡ new_plant (blocks_of network) }
    {
        let setting = Setting {
            position: Position::Left,
            lamp: Lamp::Red,
        };
        Plant {
            network,
            settings: [setting; 64],
        }
    }

    pub fn block_count(&self) -> usize
        ensures { result ≡ length (stored self.now).blocks }
    {
        self.network.len()
    }

    pub fn kind(&self, block: u8) -> Option<Kind>
        ensures { result ≡ kind_at (stored self.now) block }
    {
        Some(self.network.block(block)?.kind())
    }

    pub fn joint(&self, block: u8, end: u8) -> Joint
        ensures { result ≡ joint_at (stored self.now) block end }
    {
        let found = self.network.block(block);
        found
            .and_then(|found| found.joint(end))
            .unwrap_or(Joint::Outer)
    }

    // How a point lies; where no point is, left.
    pub fn position(&self, block: u8) -> Position
        ensures { result ≡ lies_at (stored self.now) block }
    {
        match self.kind(block) {
            Some(Kind::Point) => self.settings[block as usize].position,
            _ => Position::Left,
        }
    }

    // The end at which a lamp stands: the outer end of a border block.
    pub fn lamp_end(&self, block: u8) -> Option<u8>
        ensures { result ≡ lamp_at (stored self.now) block }
    {
        self.network.block(block)?.outer_end()
    }

    // What a lamp shows; where none stands, red.
    pub fn lamp(&self, block: u8) -> Lamp
        ensures { result ≡ lamp_of (green_at (stored self.now) block) }
    {
        // by a match: a closure would have to be told that the block it reads is there
        match self.lamp_end(block) {
            Some(_) => self.settings[block as usize].lamp,
            None => Lamp::Red,
        }
    }

    // The end to which a way leads from an end of a block, as the point there lies.
    pub fn way(&self, block: u8, entered: u8) -> Option<u8>
        ensures { result ≡ way_at (stored self.now) block entered }
    {
        let kind = self.kind(block)?;
        way(kind, entered, self.position(block))
    }
}
