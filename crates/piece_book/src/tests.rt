use crate::PieceBook;
use std::test::Fail;

#[test]
fn knows_what_was_lent(rt: HostRuntime) -> Result<(), Fail> {
    let mut book = PieceBook::new(rt.alloc());
    book.lent(7)?;
    assert!(rt; book.knows(7) && !book.settled(7));
    assert!(rt; !book.knows(0));
    Ok(())
}
