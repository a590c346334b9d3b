ghost use Rattle.std.specs.Prelude.{◌≡◌, length};
ghost use Rattle.std.specs.Option.{option_map};
ghost use Rattle.std.specs.List.{slice_get};
ghost use Rattle.network.specs.Drawing.{drawn};
ghost use Rattle.network.specs.Network.{blocks_of};
ghost use Rattle.network.specs.Plans.{Judges};
ghost use Rattle.network.specs.Sheets.{plan_of, plan_or};

use crate::drawing::Drawing;
use crate::network::Network;
use crate::route::Step;
use crate::rules::{Broken, judged};
use crate::sheet::Sheet;

impl Sheet {
    // Accepts a drawing that meets every rule, or names the first rule that it breaks, and where.
    pub fn judge(drawing: &Drawing) -> Result<Sheet, Broken>
        ensures { Judges (drawn drawing.now) (plan_or result) }
    {
        let Drawing { network, lists } = *drawing;
        let routes = judged(&network, &lists)?;
        Ok(Sheet { network, routes })
    }

    // The blocks.
    pub fn network(&self) -> Network
        ensures { blocks_of result ≡ (plan_of self.now).blocks }
    {
        self.network
    }

    // How many routes there are.
    pub fn routes(&self) -> usize
        ensures { result ≡ length (plan_of self.now).routes }
    {
        self.routes.len()
    }

    // The steps of a route, or none where there is no such route.
    pub fn route(&self, number: u8) -> Option<&[Step]>
        ensures { option_map (λ x. x.now) result ≡ slice_get (plan_of self.now).routes number }
    {
        let route = self.routes.as_slice().get(number as usize)?;
        Some(route.as_slice())
    }
}
