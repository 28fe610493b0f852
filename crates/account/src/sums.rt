// The account of roads and stocks.
ghost use Rattle.std.specs.Prelude.{◌≡◌, ℕ, ◌*◌, sum_by, unsigned_abs};
ghost use Rattle.account.specs.Accounts.{account_of};

use crate::account::Account;
use network::road::Road;

/// The account of these roads and stocks.
// kept: roads and stocks are handed in as two rows, by a rule of the project
pub fn account_of(roads: &[Road], stocks: &[i32]) -> Account
    ensures { result ≡ account_of roads.now stocks.now }
{
    Account {
        nodes: stocks.len(),
        arcs: roads.len(),
        offered: total(stocks, |&stock| u64::from(stock.max(0).unsigned_abs())),
        wanted: total(stocks, |&stock| u64::from(stock.min(0).unsigned_abs())),
        offering: stocks.iter().filter(|&&stock| stock > 0).count(),
        wanting: stocks.iter().filter(|&&stock| stock < 0).count(),
        reach: (
            total(roads, |road| span(road.most, road.first)),
            total(roads, |road| span(road.most, road.second)),
        ),
    }
}

// The sum of what each entry adds. It fits: a row has fewer than 2^64 entries.
fn total<T, F: Fn(&T) -> u64>(row: &[T], adds: F) -> u128
    requires { F.IsAlwaysCallable adds }
    ensures { (f : T → ℕ) → ((x : _) (n : ℕ) → F.post adds x n → n ≡ f x.now) → result ≡ sum_by f row.now }
{
    row.iter().map(|entry| u128::from(adds(entry))).sum()
}

// A most times the distance of a cost from zero.
fn span(most: u32, cost: i32) -> u64
    ensures { result ≡ most * unsigned_abs cost }
{
    u64::from(most) * u64::from(cost.unsigned_abs())
}
