// Worked cases of the rules, proved as one list by computing the definitions that the contracts cite.
#![tactic(auto)]

ghost use Rattle.cases.specs.Cases.{Cases};

// How many cases there are; all of them hold.
pub fn cases_hold() -> usize
    ensures { Cases result }
{
    11
}
