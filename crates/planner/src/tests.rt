// A worked text, a text for each fault, and what reading leaves in the rows.
use crate::{answer, answer_from};
use network::limits::MAX_TEXT;
use network::refusal::Refusal;
use network::road::Road;
use std::alloc::Global;
use std::process::Abort;
use std::test::Fail;
use text::{Sizes, read};

const TOO_LONG: usize = MAX_TEXT + 1;

fn answers(rt: &impl Abort, heap: Global, text: &[u8], lines: &str) -> Result<(), Fail> {
    let answer = answer(heap, text)?;
    assert_eq!(rt; answer.as_str(), lines);
    Ok(())
}

#[test]
fn account_of_a_text(rt: HostRuntime) -> Result<(), Fail> {
    let text =
        b"(net 3 4)\n(stock 0 3)\n(stock 2 -3)\n(arc (0 2) (0 2) (2 9))\n(arc (0 1) (0 4) (1 4))\n(arc (1 2) (0 4) (3 0))\n(arc (0 2) (0 2) (9 1))\n";
    let lines = "(nodes 3)\n(arcs 4)\n(offered 3 1)\n(wanted 3 1)\n(balanced yes)\n(reach 38 36)\n";
    answers(&rt, rt.alloc(), text, lines)
}

#[test]
fn faults(rt: HostRuntime) -> Result<(), Fail> {
    let heap = rt.alloc();
    let long = [b'('; TOO_LONG];
    answers(&rt, heap, &long, "(refused 9)\n")?;
    // One byte fewer is short enough, and then a line without its end.
    answers(&rt, heap, &long[1..], "(refused 10 65536)\n")?;
    answers(&rt, heap, b"(net 2 1)\n(stork 0 1)\n", "(refused 10 14)\n")?;
    answers(&rt, heap, b"(net 2 1)\n(stock 2 1)\n", "(refused 11 17)\n")?;
    answers(
        &rt,
        heap,
        b"(net 2 1)\n(arc (1 1) (0 1) (1 1))\n",
        "(refused 12 10)\n",
    )?;
    answers(
        &rt,
        heap,
        b"(net 2 1)\n(stock 0 1)\n(stock 0 1)\n",
        "(refused 13 22)\n",
    )
}

#[test]
fn texts_of_readers(rt: HostRuntime) -> Result<(), Fail> {
    let plain = answer_from(rt.alloc(), b"(net 1 0)\n(stock 0 1)\n".as_slice())?;
    let lines = "(nodes 1)\n(arcs 0)\n(offered 1 1)\n(wanted 0 0)\n(balanced no)\n(reach 0 0)\n";
    assert_eq!(rt; plain.as_str(), lines);
    let long = [b'('; TOO_LONG];
    let refused = answer_from(rt.alloc(), long.as_slice())?;
    assert_eq!(rt; refused.as_str(), "(refused 9)\n");
    let short = answer_from(rt.alloc(), &long[1..])?;
    assert_eq!(rt; short.as_str(), "(refused 10 65536)\n");
    Ok(())
}

#[test]
fn rows(rt: HostRuntime) {
    let text = b"(net 2 1)\n(stock 1 5)\n(arc (0 1) (0 2) (3 -4))\n";
    let old = Road {
        tail: 9,
        head: 9,
        least: 9,
        most: 9,
        first: 9,
        second: 9,
    };
    let new = Road {
        head: 1,
        most: 2,
        first: 3,
        second: -4,
        ..Road::default()
    };
    let mut roads = [old; 2];
    let mut stocks = [7; 3];
    assert_eq!(rt;
        read(text, &mut roads[..0], &mut stocks),
        Err(Refusal::TextRows)
    );
    assert_eq!(rt;
        read(text, &mut roads, &mut stocks[..1]),
        Err(Refusal::TextRows)
    );
    // The last byte is missing, so all but one line has been read.
    assert_eq!(rt;
        read(&text[..46], &mut roads, &mut stocks),
        Err(Refusal::Form(46))
    );
    assert_eq!(rt; roads, [old, old]);
    assert_eq!(rt; stocks, [7, 7, 7]);
    assert_eq!(rt;
        read(text, &mut roads, &mut stocks),
        Ok(Sizes { nodes: 2, arcs: 1 })
    );
    assert_eq!(rt; roads, [new, old]);
    assert_eq!(rt; stocks, [0, 5, 7]);
}
