// What holds of every sheet, however it was come by.
ghost use Rattle.std.specs.Prelude.{◌≡◌, true};
ghost use Rattle.network.specs.Rules.{BordersApart};
ghost use Rattle.network.specs.Sheets.{plan_of, PlanLawful};

use crate::sheet::Sheet;

impl Sheet {
    // Every sheet meets every rule, so there is nothing left to test.
    pub fn is_lawful(&self) -> bool
        ensures value { result ≡ true }
        ensures rules { PlanLawful (plan_of self.now) }
        ensures borders { BordersApart (plan_of self.now).routes }
    {
        true
    }
}
