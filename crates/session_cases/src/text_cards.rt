// Text that is loaded from a card of lines.
use line_bench::end::End::{Fault, Finished};
use session_bench::sessions::Move::Types;
use session_bench::sessions::failing_on_text;
use std::test::Fail;

#[test]
fn text_cards(rt: HostRuntime) -> Result<(), Fail> {
    // Sixteen lines of block 0, and two of block 1.
    let text = b"\n\n\n\n\n\n\n\n\n\n\n\n\n\n\n\n2 3 + .\n: SQ DUP * ; 4 SQ .\n";
    let moves = [
        Types("1 LOAD", Finished, 19, "5 16 "),
        Types("UPDATE", Fault(27, 0, 6), 1, ""),
        Types("2 BLOCK", Fault(26, 2, 5), 2, ""),
        Types("0 BLOCK C@ .", Finished, 5, "32 "),
    ];
    let failing = failing_on_text(rt.alloc(), text, &moves, "DP: 1635 NEWEST: 1620 HELD: 0")?;
    assert!(rt; failing.is_none());
    Ok(())
}
