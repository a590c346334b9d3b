use crate::Yard;
use crate::train::Train;
use crate::wish::Wish;
use network::drawing::Drawing;
use network::network::Network;
use network::sheet::Sheet;
use network::track::{Block, Joint};
use trackside::answers::{Lamp, Moved};
use trackside::plant::Plant;
use trackside::{Look, Work};

// A trackside held by value, as the layers above hold it.
#[derive(Drop)]
struct Held<T: Work> {
    below: T,
}

impl<T: Work> Held<T> {
    fn new(below: T) -> Held<T> {
        Held { below }
    }

    fn lit(&mut self, block: u8) {
        let _ = self.below.light(block, Lamp::Green);
    }

    fn stands(&self, block: u8) -> bool {
        self.below.occupied(block)
    }

    // The kind of the move as a number, so that a fault's own number can stand beside it.
    fn moved(&mut self) -> u8 {
        match self.below.step() {
            Ok(Moved::Quiet) => 0,
            Ok(Moved::Enter { .. }) => 1,
            Ok(Moved::Forward { .. }) => 2,
            Ok(Moved::Clear { .. }) => 3,
            Err(fault) => fault.number,
        }
    }
}

// Two blocks in a row, each a border block.
fn two_blocks() -> Network {
    let mut drawing = Drawing::new();
    let _ = drawing.add_block(Block::Plain(Joint::Outer, Joint::Joined { block: 1, end: 0 }));
    let _ = drawing.add_block(Block::Plain(Joint::Joined { block: 0, end: 1 }, Joint::Outer));
    match Sheet::judge(&drawing) {
        Ok(sheet) => sheet.network(),
        Err(_) => Network::new(),
    }
}

// A train enters past a green lamp, goes forward, clears its rear and leaves.
#[test]
fn goes_through(rt: HostRuntime) {
    let mut plant = Plant::new(Network::new());
    let mut records = [Train::new(); 2];
    let mut slots = [Wish::Enter { block: 0 }; 6];
    let mut yard = Yard::new(two_blocks(), &mut plant, &mut records, &mut slots, 0, 0);
    assert!(rt; yard.wish(Wish::Enter { block: 0 }).is_ok());
    assert!(rt; yard.wish(Wish::Enter { block: 0 }).is_ok());
    assert!(rt; yard.wish(Wish::Forward { train: 0 }).is_ok());
    assert!(rt; yard.wish(Wish::Clear { train: 0 }).is_ok());
    assert!(rt; yard.wish(Wish::Clear { train: 0 }).is_ok());
    let mut held = Held::new(yard);
    assert_eq!(rt; held.moved(), 71);
    held.lit(0);
    assert_eq!(rt; held.moved(), 1);
    assert!(rt; held.stands(0));
    assert_eq!(rt; held.moved(), 2);
    assert!(rt; held.stands(1));
    assert_eq!(rt; held.moved(), 3);
    assert!(rt; !held.stands(0));
    assert_eq!(rt; held.moved(), 3);
    assert!(rt; !held.stands(1));
    assert_eq!(rt; held.moved(), 0);
}
