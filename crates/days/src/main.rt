// Plays a day of wishes over the yard model and a day of frames over the frame link, and prints every order, movement and
// fault, each with the page of the yard behind it.
#![tactic(auto)]

use acts::Act;
use framelink::link::FrameLink;
use network::network::Network;
use std::io;
use trackside::Work;
use trackside::plant::Plant;
use yard::Yard;
use yard::train::Train;
use yard::wish::Wish;

mod acts;
mod days;

// The junction of `examples/junction.sheet`.
const JUNCTION: &[u8] =
    b"plain - 1.0\npoint 0.1 2.0 3.0\nplain 1.1 -\ncrossing 1.2 4.0 5.0 6.0\nplain 3.1 -\nplain 3.2 -\nplain 3.3 -\nroute 0 1 2\nroute 0 1 3 4\nroute 5 3 6\nroute 4 3 1 0\n";

fn junction() -> Network {
    reader::read(JUNCTION).map_or(Network::new(), |sheet| sheet.network())
}

fn play<T: Work>(rt: &HostRuntime, trackside: &mut T, acts: &[Act]) -> io::Result<()> {
    for act in acts {
        rt.println(acts::line(rt.alloc(), trackside, *act)?)?;
    }
    Ok(())
}

fn wishes(rt: &HostRuntime) -> io::Result<()> {
    let mut plant = Plant::new(Network::new());
    let mut records = [Train::new(); 2];
    let mut slots = [Wish::Enter { block: 0 }; 32];
    let mut yard = Yard::new(junction(), &mut plant, &mut records, &mut slots, 0, 1 << 4);
    for wish in days::WISHES {
        let _ = yard.wish(wish);
    }
    play(rt, &mut yard, &days::BY_WISHES)
}

fn frames(rt: &HostRuntime) -> io::Result<()> {
    let mut link = FrameLink::new(junction(), days::FRAMES);
    play(rt, &mut link, &days::BY_FRAMES)
}

fn main(rt: HostRuntime) -> io::Result<()> {
    rt.println("wishes")?;
    wishes(&rt)?;
    rt.println("frames")?;
    frames(&rt)
}
