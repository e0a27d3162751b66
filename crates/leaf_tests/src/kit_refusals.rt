// A kit that is refused.
use kits::KitRefused;
use std::test::Fail;

// A line of 65 bytes is refused by number, and named.
#[test]
fn long_line(rt: HostRuntime) -> Result<(), Fail> {
    let mut text = String::from_str(rt.alloc(), "( first )\n")?;
    for _ in 0..65 {
        text.push('x')?;
    }
    let refused = KitRefused::of(text.as_bytes())
        .ok_or("accepted")?
        .to_string(rt.alloc())?;
    assert_eq!(rt;
        refused.as_str(),
        "kit refused, nothing written: line 2 has more than 64 bytes; fault 1 (Calls): the lent memory or the card has not the length it must have, before any word"
    );
    Ok(())
}
