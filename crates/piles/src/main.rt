// piles: the accounts of some networks and of layers piled on them.
#![tactic(auto)]

mod counted;

use account::asked::account_of_network;
use account::lines::account_lines;
use anyhow::ensure;
use caps::layer::Cap;
use caps::places::CapEntry;
use caps::table::{AddError, CapTable};
use counted::Counted;
use floors::floor::Floor;
use grids::grid::Grid;
use layers::exchange::Exchange;
use network::interface::Network;
use network::refusal::Refusal;
use network::road::Road;
use tables::held::Table;

// A consignment whose last road has to carry a chest.
// kept written out: a constant calls no function, and the table that lives as long as the program is over constants
const ROADS: [Road; 4] = [
    Road {
        tail: 0,
        head: 2,
        least: 0,
        most: 2,
        first: 2,
        second: 9,
    },
    Road {
        tail: 0,
        head: 1,
        least: 0,
        most: 4,
        first: 1,
        second: 4,
    },
    Road {
        tail: 1,
        head: 2,
        least: 0,
        most: 4,
        first: 3,
        second: 0,
    },
    Road {
        tail: 0,
        head: 2,
        least: 1,
        most: 2,
        first: 9,
        second: 1,
    },
];

const STOCKS: [i32; 3] = [3, 0, -3];

fn main(rt: HostRuntime) -> anyhow::Result<()> {
    let rt = &rt;
    show(rt, "table", table())?;
    show(rt, "exchange of table", Exchange::new(table()))?;
    show(rt, "exchange twice", Exchange::new(Exchange::new(table())))?;
    show(rt, "floor of table", Floor::new(table()))?;
    show(rt, "floor of floor", Floor::new(Floor::new(table())))?;
    show(rt, "cap of cap", Cap::new(capped(rt)?, idle_caps(rt)?))?;
    show(
        rt,
        "exchange of floor of cap",
        Exchange::new(Floor::new(capped(rt)?)),
    )?;
    show(rt, "table at fault", Table::over(&ROADS, &[1, 2]))?;
    show_grid(rt)?;
    let five = Exchange::new(Floor::new(Cap::new(
        Exchange::new(Floor::new(capped(rt)?)),
        idle_caps(rt)?,
    )));
    let mut counted = Counted::new(five);
    show_asked(rt, "counted pile", &mut counted)?;
    let questions = counted.questions();
    println!(rt; "{questions} questions")?;
    Ok(())
}

fn table() -> Table<'static> {
    Table::over(&ROADS, &STOCKS)
}

// The table with its second road capped at 1, its third capped and then lifted again, and a cap that is refused.
fn capped(rt: &HostRuntime) -> anyhow::Result<Cap<Table<'static>>> {
    let mut cap = Cap::new(table(), CapTable::new(rt.alloc())?);
    for (arc, amount) in [(1, 1), (2, 0), (2, 4)] {
        cap.cap(arc, amount)?;
    }
    ensure!(cap.cap(3, 0) == Err(Refusal::CapRange), "another cap");
    Ok(cap)
}

// Caps that name no arc, or more than the arc may carry.
fn idle_caps(rt: &HostRuntime) -> anyhow::Result<CapTable> {
    let mut table = CapTable::new(rt.alloc())?;
    table.add(CapEntry { arc: 9, amount: 0 })?;
    table.add(CapEntry { arc: 0, amount: 3 })?;
    let again = table.add(CapEntry { arc: 9, amount: 1 });
    ensure!(again == Err(AddError::Named), "another table");
    Ok(table)
}

fn show_grid(rt: &HostRuntime) -> anyhow::Result<()> {
    let grid = Grid::new(3, 3, 2)?;
    show(rt, "floor of grid", Floor::new(grid))
}

fn show<N: Network + Drop>(rt: &HostRuntime, name: &str, mut network: N) -> anyhow::Result<()> {
    show_asked(rt, name, &mut network)
}

// Prints the fixed costs and the account under a name.
fn show_asked<N: Network>(rt: &HostRuntime, name: &str, network: &mut N) -> anyhow::Result<()> {
    let (first, second) = network.size().fixed;
    let account = account_of_network(network);
    let lines = account_lines(rt.alloc(), &account)?;
    print!(rt; "{name}: fixed {first} {second}\n{lines}")?;
    Ok(())
}
