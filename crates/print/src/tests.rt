// Lines with and without a place, and a row that is too short.
use crate::refused::refusal_line;
use crate::row::put_line;
use network::refusal::Refusal;
use std::test::Fail;

#[test]
fn refusals(rt: HostRuntime) -> Result<(), Fail> {
    let plain = refusal_line(rt.alloc(), Refusal::NoFlow)?;
    assert_eq!(rt; plain.as_str(), "(refused 8)\n");
    let placed = refusal_line(rt.alloc(), Refusal::Form(57))?;
    assert_eq!(rt; placed.as_str(), "(refused 10 57)\n");
    Ok(())
}

#[test]
fn rows(rt: HostRuntime) {
    let mut row = [7u8; 4];
    assert_eq!(rt; put_line(&mut row, b"12345"), Err(Refusal::LineRow));
    assert_eq!(rt; row, [7, 7, 7, 7]);
    assert_eq!(rt; put_line(&mut row, b"12"), Ok(2));
    assert_eq!(rt; row, [b'1', b'2', 7, 7]);
}
