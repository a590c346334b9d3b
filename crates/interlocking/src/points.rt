// The points of a route, looked at and laid.
ghost use Rattle.std.specs.Prelude.{◌≡◌};
ghost use Rattle.interlocking.specs.Points.{wrong_at, lies_right, all_lie_right, Laying};

use book::refusal::Refusal;
use network::route::Step;
use network::track::Position;
use trackside::{Look, Work};

// The position that a step needs, where its point lies otherwise.
fn wrong_at<T: Look>(trackside: &T, step: &Step) -> Option<Position>
    ensures { result ≡ wrong_at (T.Look.as_ground trackside.now) step.now }
{
    step.needs
        .filter(|needed| trackside.position(step.block) != *needed)
}

fn lies_right<T: Look>(trackside: &T, step: &Step) -> Result<(), Refusal>
    ensures { result ≡ lies_right (T.Look.as_ground trackside.now) step.now }
{
    wrong_at(trackside, step).map_or(Ok(()), |_| {
        Err(Refusal::PointLiesWrong { block: step.block })
    })
}

// Whether each point lies as its step needs.
pub(crate) fn all_lie_right<T: Look>(trackside: &T, steps: &[Step]) -> Result<(), Refusal>
    ensures { result ≡ all_lie_right (T.Look.as_ground trackside.now) steps.now }
{
    steps
        .iter()
        .try_for_each(|step| lies_right(trackside, step))
}

// Throws each point that lies wrong when its turn comes, and answers how many were thrown. One that is stuck ends it.
pub(crate) fn lay_points<T: Work>(trackside: &mut T, steps: &[Step]) -> Result<usize, Refusal>
    ensures { Laying T.Look steps.now trackside.old 0 result trackside.new }
{
    let mut thrown = 0;
    for step in steps {
        let block = step.block;
        if let Some(position) = wrong_at(trackside, step) {
            trackside
                .throw(block, position)
                .map_err(|_| Refusal::PointStuck { block })?;
            thrown += 1;
        }
    }
    Ok(thrown)
}
