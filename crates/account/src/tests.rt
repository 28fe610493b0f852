// A small consignment.
use crate::lines::account_lines;
use crate::sums::account_of;
use network::road::Road;
use std::test::Fail;

#[test]
fn lines_of_an_account(rt: HostRuntime) -> Result<(), Fail> {
    let road = |tail, head, most, first, second| Road {
        tail,
        head,
        least: 0,
        most,
        first,
        second,
    };
    let roads = [
        road(0, 2, 2, 2, 9),
        road(0, 1, 4, 1, 4),
        road(1, 2, 4, 3, 0),
        road(0, 2, 2, 9, 1),
    ];
    let account = account_of(&roads, &[3, 0, -3]);
    let text = account_lines(rt.alloc(), &account)?;
    assert_eq!(rt;
        text.as_str(),
        "(nodes 3)\n(arcs 4)\n(offered 3 1)\n(wanted 3 1)\n(balanced yes)\n(reach 38 36)\n"
    );
    Ok(())
}
