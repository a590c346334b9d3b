// Whether a trackside can be worked by a sheet: built alike, empty and dark. Each check asks by a block's number, as a trackside is
// asked everywhere.
ghost use Rattle.std.specs.Prelude.{◌≡◌, ◌≤◌, ℕ, Option, length};
ghost use Rattle.network.specs.declared.track.Block.{Block};
ghost use Rattle.network.specs.Network.{blocks_of};
ghost use Rattle.book.specs.declared.refusal.Unfit.{Unfit};
ghost use Rattle.interlocking.specs.Fitness.{built_alike, differs, occupied, lit, first_unfit, unfit_for};

use book::refusal::Unfit;
use network::network::Network;
use network::track::Block;
use trackside::Look;
use trackside::answers::Lamp;

// It looks kind by kind: a trackside answers joints and no blocks, so there is no block to compare the drawn one with.
fn is_built_alike<T: Look>(trackside: &T, number: u8, drawn: &Block) -> bool
    ensures { result ≡ built_alike (T.Look.as_ground trackside.now) number drawn.now }
{
    let joined = |end, joint| trackside.joint(number, end) == joint;
    trackside.kind(number) == Some(drawn.kind())
        && match *drawn {
            Block::Plain(a, b) => joined(0, a) && joined(1, b),
            Block::Point(a, b, c) => joined(0, a) && joined(1, b) && joined(2, c),
            Block::Crossing(a, b, c, d) => joined(0, a)
                && joined(1, b)
                && joined(2, c)
                && joined(3, d),
        }
}

fn differs<T: Look>(trackside: &T, number: u8, drawn: &Block) -> Option<Unfit>
    ensures { result ≡ differs (T.Look.as_ground trackside.now) number drawn.now }
{
    (!is_built_alike(trackside, number, drawn)).then_some(Unfit::BlockDiffers { block: number })
}

fn occupied<T: Look>(trackside: &T, number: u8) -> Option<Unfit>
    ensures { result ≡ occupied (T.Look.as_ground trackside.now) number }
{
    trackside
        .occupied(number)
        .then_some(Unfit::BlockOccupied { block: number })
}

fn lit<T: Look>(trackside: &T, number: u8) -> Option<Unfit>
    ensures { result ≡ lit (T.Look.as_ground trackside.now) number }
{
    (trackside.lamp(number) == Lamp::Green).then_some(Unfit::LampGreen { block: number })
}

// Why the first block that fails a check is unfit: what any function `says` that agrees with the check says of the first such block.
fn first_unfit<F: Fn(u8, &Block) -> Option<Unfit>>(network: &Network, check: F) -> Option<Unfit>
    requires { F.IsAlwaysCallable check }
    ensures { (says : ℕ → Block → Option Unfit) → ((b : ℕ) (x : _) (r : _) → F.post check b x r → r ≡ says b x.now) → result ≡ first_unfit says 0 (blocks_of network.now) }
{
    // not by `find_map`: it leaves a chain of calls over numbered blocks, and the check did not find in it which block was the first
    for (number, drawn) in network.blocks().iter().enumerate() {
        if let Some(unfit) = check(number as u8, drawn) {
            return Some(unfit);
        }
    }
    None
}

// Why a trackside cannot be worked by a network: none where it can.
pub(crate) fn unfit_for<T: Look>(trackside: &T, network: &Network) -> Option<Unfit>
    ensures { result ≡ unfit_for (T.Look.as_ground trackside.now) (blocks_of network.now) }
{
    if trackside.block_count() != network.len() {
        return Some(Unfit::BlockCount);
    }
    // not by `or_else`: with a check's closure inside another closure the proof did not close
    if let Some(unfit) = first_unfit(network, |number, drawn| differs(trackside, number, drawn)) {
        return Some(unfit);
    }
    if let Some(unfit) = first_unfit(network, |number, _| occupied(trackside, number)) {
        return Some(unfit);
    }
    first_unfit(network, |number, _| lit(trackside, number))
}
