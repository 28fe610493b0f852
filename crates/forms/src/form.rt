// The three forms, from their words on.
ghost use Rattle.std.specs.Prelude.{◌≡◌, ℕ, ◌<◌, ◌≤◌, true, IfOk};
ghost use Rattle.network.specs.Limits.{max_nodes};
ghost use Rattle.forms.specs.Form.{net_items, stock_items, arc_items, stock_numbers, road_numbers};
ghost use Rattle.forms.specs.Scan.{Scanned, by, naturals};
ghost use Rattle.forms.specs.Written.{Accepts, Points, plain};

use crate::rest::Cursor;
use lines::number::Range;
use network::limits::{MAX_ARCS, MAX_MOST, MAX_NODES, MAX_STOCK};
use network::refusal::Refusal;
use network::road::Road;

/// The numbers of nodes and arcs, `N M)`.
pub fn net(mut rest: Cursor<'_>) -> Result<(u32, u32), Refusal>
    ensures { Scanned net_items rest.entry.bytes.now rest.entry.place (by naturals result) }
{
    // kept: `u32` has no `From<usize>`, and a limit that is cast is still a number that the check knows
    let nodes = rest.natural(1, MAX_NODES as u32)?;
    rest.byte(b' ')?;
    let arcs = rest.natural(0, MAX_ARCS as u32)?;
    rest.byte(b')')?;
    rest.end()?;
    Ok((nodes, arcs))
}

/// A node and its stock, `I B)`, where there are so many nodes.
pub fn stock(mut rest: Cursor<'_>, nodes: u32) -> Result<(u32, i32), Refusal>
    requires nodes { (0 < nodes) × (nodes ≤ max_nodes) }
    ensures reads { Scanned (stock_items nodes) rest.entry.bytes.now rest.entry.place (by stock_numbers result) }
    ensures node { IfOk result (λ s. s.0 < nodes) }
{
    let node = rest.natural(0, nodes - 1)?;
    rest.byte(b' ')?;
    let amount = rest.number(Range::around(MAX_STOCK))?;
    rest.byte(b')')?;
    rest.end()?;
    Ok((node, amount))
}

/// A road, `(T H) (L U) (C D))`, where there are so many nodes.
pub fn arc(mut rest: Cursor<'_>, nodes: u32) -> Result<Road, Refusal>
    requires nodes { (0 < nodes) × (nodes ≤ max_nodes) }
    ensures { Scanned (arc_items nodes) rest.entry.bytes.now rest.entry.place (by road_numbers result) }
{
    let (tail, head) = rest.naturals(nodes - 1)?;
    rest.byte(b' ')?;
    let (least, most) = rest.naturals(MAX_MOST)?;
    rest.byte(b' ')?;
    let (first, second) = rest.costs()?;
    rest.byte(b')')?;
    rest.end()?;
    Ok(Road {
        tail,
        head,
        least,
        most,
        first,
        second,
    })
}

/// What a scan means: bytes are accepted exactly where they are the form with its numbers written out, and a fault points
/// at the first item that does not fit. The three forms are such forms.
pub fn forms_stand()
    ensures accepts { Accepts }
    ensures points { Points }
    ensures nets { plain net_items ≡ true }
    ensures stocks { (n : ℕ) → n ≤ max_nodes → plain (stock_items n) ≡ true }
    ensures arcs { (n : ℕ) → n ≤ max_nodes → plain (arc_items n) ≡ true }
{}
