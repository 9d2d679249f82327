//! The rules on examples.

use crate::book::Book;
use crate::kind::Kind;
use crate::refusal::Refusal;
use std::test::Fail;

/// The number of the refusal; none for numbers that write a kind.
fn refused(numbers: &[u32]) -> Option<u32> {
    Kind::try_from(numbers).err().map(Refusal::number)
}

#[test]
fn two_runs(rt: HostRuntime) -> Result<(), Fail> {
    let kind = Kind::try_from(&[3u32, 0, 1, 2, 1][..])?;
    assert!(rt; kind.refers(0));
    assert!(rt; !kind.refers(1));
    assert!(rt; kind.refers(2));
    Ok(())
}

#[test]
fn no_kinds(rt: HostRuntime) {
    assert_eq!(rt; refused(&[3, 0, 2, 2, 1]), Some(11), "the runs touch");
    assert_eq!(rt; refused(&[3, 2, 2]), Some(11), "the run passes the fields");
    assert_eq!(rt; refused(&[3, 0, 1, 2]), Some(11), "a lone last number");
    assert_eq!(rt;
        refused(&[9, 0, 1, 2, 1, 4, 1, 6, 1, 8, 1]),
        Some(11),
        "a fifth run"
    );
    assert_eq!(rt; refused(&[]), Some(11), "no number");
}

#[test]
fn full_book(rt: HostRuntime) -> Result<(), Fail> {
    let mut book = Book::new();
    for _ in 0..16 {
        book.add(&[1])?;
    }
    assert_eq!(rt;
        book.add(&[1]).map_err(Refusal::number),
        Err(11),
        "a 17th kind"
    );
    assert_eq!(rt; book.seal().kinds(), 16);
    Ok(())
}
