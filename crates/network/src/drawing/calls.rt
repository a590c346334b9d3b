ghost use Rattle.std.specs.Prelude.{◌≡◌, length};
ghost use Rattle.network.specs.Drawing.{drawn, empty, add_block, add_route, numbers_of};

use crate::drawing::{Drawing, Limit};
use crate::lists::{Listed, listed};
use crate::network::Network;
use crate::track::{Block, Joint};
use table::Table;

impl Drawing {
    // A drawing that declares nothing.
    pub fn new() -> Drawing
        ensures { drawn result ≡ empty }
    {
        Drawing {
            network: Network::new(),
            lists: Table::new(Table::new(0)),
        }
    }

    // How many blocks are declared.
    pub fn blocks(&self) -> usize
        ensures { result ≡ length (drawn self.now).blocks }
    {
        self.network.len()
    }

    // How many routes are declared.
    pub fn routes(&self) -> usize
        ensures { result ≡ length (drawn self.now).routes }
    {
        self.lists.len()
    }

    // Declares the next block, or refuses a 65th.
    pub fn add_block(&mut self, block: Block) -> Result<(), Limit>
        ensures { (result, drawn self.new) ≡ add_block (drawn self.old) block }
    {
        self.network.push(block)
    }

    // Declares the next route by its block numbers, or refuses a 25th number or a 33rd route.
    pub fn add_route(&mut self, numbers: &[u8]) -> Result<(), Limit>
        ensures { (result, drawn self.new) ≡ add_route (drawn self.old) numbers.now }
    {
        let listed = listed(numbers)?;
        self.add_listed(listed)
    }

    // Declares the next route by the table of its block numbers, or refuses a 33rd route.
    pub fn add_listed(&mut self, listed: Listed) -> Result<(), Limit>
        ensures { (result, drawn self.new) ≡ add_route (drawn self.old) (numbers_of listed) }
    {
        self.lists.push(listed).map_err(|_| Limit::Routes)
    }
}
