// The test of rows.
ghost use Rattle.std.specs.Prelude.{◌≡◌, ℕ, List, [], ◌∷◌};
ghost use Rattle.network.specs.Tested.{is_near, is_joined, is_bounded, is_costed, is_ranged, is_passable, is_sized, stock_fault, road_fault, row_fault};

use network::limits::{MAX_ARCS, MAX_COST, MAX_MOST, MAX_NODES, MAX_STOCK};
use network::refusal::Refusal;
use network::road::{End, Road};

/// The first fault of rows of roads and stocks, or none: 11 with 0 for a bad length; then record by record, all stocks before
/// all roads, 11 with the record's index for a number outside its range or no such node, and after that 12 for tail equal
/// to head or least above most.
// kept: roads and stocks are handed in as two rows, here and wherever both go together, by a rule of the project
pub fn row_fault(roads: &[Road], stocks: &[i32]) -> Option<Refusal>
    ensures { result ≡ row_fault roads.now stocks.now }
{
    if !is_sized(roads, stocks) {
        // kept: 0 is the place that the list of refusals gives a bad length
        return Some(Refusal::Number(0));
    }
    stock_fault(stocks).or_else(|| road_fault(roads, stocks.len()))
}

fn is_sized(roads: &[Road], stocks: &[i32]) -> bool
    ensures { result ≡ is_sized roads.now stocks.now }
{
    (1..=MAX_NODES).contains(&stocks.len()) && roads.len() <= MAX_ARCS
}

fn stock_fault(stocks: &[i32]) -> Option<Refusal>
    ensures { result ≡ stock_fault 0 stocks.now }
{
    stocks
        .iter()
        .position(|stock| !is_near(stock, MAX_STOCK))
        .map(Refusal::Number)
}

fn road_fault(roads: &[Road], nodes: usize) -> Option<Refusal>
    ensures { result ≡ road_fault nodes 0 roads.now }
{
    roads
        .iter()
        .enumerate()
        .find_map(|(i, road)| fault_at(i, road, nodes))
}

// The fault of the road of record `i`.
fn fault_at(i: usize, road: &Road, nodes: usize) -> Option<Refusal>
    ensures { result ≡ road_fault nodes i (road.now ∷ []) }
{
    if !is_ranged(road, nodes) {
        Some(Refusal::Number(i))
    } else if !road.is_passable() {
        Some(Refusal::Impassable(i))
    } else {
        None
    }
}

// Whether a number is at most so far from zero.
fn is_near(value: &i32, far: u32) -> bool
    ensures { result ≡ is_near far value.now }
{
    value.unsigned_abs() <= far
}

fn is_ranged(road: &Road, nodes: usize) -> bool
    ensures { result ≡ is_ranged nodes road.now }
{
    is_joined(road, nodes) && is_bounded(road) && is_costed(road)
}

fn is_joined(road: &Road, nodes: usize) -> bool
    ensures { result ≡ is_joined nodes road.now }
{
    road.end_node(End::Tail) < nodes && road.end_node(End::Head) < nodes
}

fn is_bounded(road: &Road) -> bool
    ensures { result ≡ is_bounded road.now }
{
    road.least <= MAX_MOST && road.most <= MAX_MOST
}

fn is_costed(road: &Road) -> bool
    ensures { result ≡ is_costed road.now }
{
    is_near(&road.first, MAX_COST) && is_near(&road.second, MAX_COST)
}
