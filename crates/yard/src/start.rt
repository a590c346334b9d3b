// A yard made, and asked. Each says where its parts lie (`memory`), as the fleet's calls do.
ghost use Rattle.std.specs.Prelude.{◌≡◌, map, length};
ghost use Rattle.line.specs.Lines.{slots_after_put};
ghost use Rattle.network.specs.Network.{blocks_of};
ghost use Rattle.yard.specs.Steps.{Lent};
ghost use Rattle.yard.specs.Trains.{kept};
ghost use Rattle.yard.specs.Views.{view, new_yard, wished};

use crate::Yard;
use crate::fleet::Fleet;
use crate::train::Train;
use crate::wish::Wish;
use line::Line;
use line::refusal::Full;
use network::network::Network;
use trackside::plant::Plant;

impl<'a> Yard<'a> {
    // No trains, all lamps red, all points left, and no wishes. The plant that is lent becomes that of the network; the records
    // and the slots stay as they are until a call uses them.
    pub fn new(
        network: Network,
        plant: &'a mut Plant,
        records: &'a mut [Train],
        slots: &'a mut [Wish],
        clamped: u64,
        dead: u64,
    ) -> Yard<'a>
        ensures view { view result ≡ new_yard (blocks_of network) (map kept records.old) (length slots.old) clamped dead }
        ensures slots { result.wishes.slots.now ≡ slots.old }
        ensures first { result.wishes.first ≡ 0 }
        ensures memory { (result.plant.ghost_name ≡ plant.entry.ghost_name) × (result.fleet.records.ghost_name ≡ records.entry.ghost_name) × (result.wishes.slots.ghost_name ≡ slots.entry.ghost_name) }
    {
        *plant = Plant::new(network);
        Yard {
            plant,
            clamped,
            dead,
            fleet: Fleet::new(records),
            wishes: Line::new(slots),
        }
    }

    // A wish joins the line, where there is room.
    pub fn wish(&mut self, wish: Wish) -> Result<(), Full>
        ensures view { (result, view self.new) ≡ wished (view self.old) wish }
        ensures slots { self.new.wishes.slots.now ≡ slots_after_put self.old.wishes wish }
        ensures first { self.new.wishes.first ≡ self.old.wishes.first }
        ensures memory { Lent self.old self.new }
    {
        self.wishes.put(wish)
    }
}
