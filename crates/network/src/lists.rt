// The routes that a sheet declares, each as the numbers of its blocks, at most 32 of at most 24 blocks each.
ghost use Rattle.std.specs.Prelude.{◌≡◌};
ghost use Rattle.network.specs.Drawing.{list_of, listed_or};

use crate::drawing::Limit;
use table::Table;

// The block numbers of one route.
pub type Listed = Table<u8, 24>;

pub type Lists = Table<Listed, 32>;

// The block numbers of a route that is not too long.
pub(crate) fn listed(numbers: &[u8]) -> Result<Listed, Limit>
    ensures { listed_or result ≡ list_of numbers.now }
{
    Table::from_slice(numbers, 0).map_err(|_| Limit::Length)
}
