// The wording of faults.
use fault::{Fault, Place, Reason};
use std::process::Abort;
use std::test::Fail;

fn says(
    rt: &(impl Abort + AllocGlobal),
    reason: Reason,
    place: Place,
    words: &str,
) -> Result<(), Fail> {
    let text = Fault::new(reason, place).to_string(rt.alloc())?;
    assert_eq!(rt; text.as_str(), words);
    Ok(())
}

#[test]
fn faults_say_what_and_where(rt: HostRuntime) -> Result<(), Fail> {
    let there = Place {
        blk: 3,
        start: 5,
        length: 4,
    };
    says(
        &rt,
        Reason::NoBlock,
        there,
        "fault 26 (Store): the card has no such block, at BLK 3, place 5, length 4",
    )?;
    says(
        &rt,
        Reason::Aborted,
        there,
        "fault 28 (Word): ABORT, at BLK 3, place 5, length 4",
    )?;
    says(
        &rt,
        Reason::BadLoad,
        there,
        "fault 25 (Compiler): block 0 cannot be loaded, nor can a ninth load be opened, at BLK 3, place 5, length 4",
    )?;
    says(
        &rt,
        Reason::WrongLength,
        Place::nowhere(),
        "fault 1 (Calls): the lent memory or the card has not the length it must have, before any word",
    )
}
