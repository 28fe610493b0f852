// Some grids in numbers.
use crate::grid::Grid;
use network::interface::Network;
use network::road::Road;
use std::test::Fail;

#[test]
fn two_rows_of_three(rt: HostRuntime) -> Result<(), Fail> {
    let mut grid = Grid::new(2, 3, 9)?;
    assert_eq!(rt; grid.size().arcs, 7);
    assert_eq!(rt; grid.stock(0), Some(9));
    assert_eq!(rt; grid.stock(5), Some(-9));
    assert_eq!(rt; grid.stock(6), None);
    // from row 1 and column 1 to the right, and from row 0 and column 2 down
    assert_eq!(rt; grid.arc(3), Some(road(4, 5, 4, 4, -3)));
    assert_eq!(rt; grid.arc(6), Some(road(2, 5, 5, 2, 1)));
    assert_eq!(rt; grid.arc(7), None);
    Ok(())
}

#[test]
fn lone_node(rt: HostRuntime) -> Result<(), Fail> {
    let mut grid = Grid::new(1, 1, 1_000)?;
    assert_eq!(rt; grid.size().arcs, 0);
    assert_eq!(rt; grid.stock(0), Some(0));
    Ok(())
}

fn road(tail: u32, head: u32, most: u32, first: i32, second: i32) -> Road {
    Road {
        tail,
        head,
        least: 0,
        most,
        first,
        second,
    }
}
