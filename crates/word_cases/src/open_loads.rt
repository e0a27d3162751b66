// LOAD, and the end of a load. The text goes on in block 3, where nothing else is told.
use super::trying::tables_hold;
use block_words::loading::end_load;
use std::process::Abort;
use word_bench::bench::Bench;

const OPENED: &str = "
LOAD | 9 5                            | 9 LOAD: 3 BLK: 5
LOAD | 65535                          | LOAD: 3 BLK: 65535
LOAD | 3 IN: 7                        | IN: 7 LOAD: 3
LOAD | 5 LOAD: 3 3 3 3 3 3 3 IN: 1024 | LOAD: 3 3 3 3 3 3 3 IN: 1024 LOAD: 3 BLK: 5 IN: 0
LOAD | 5 LOAD: 3 3 3 3 3 3 3 3        | fault 25
LOAD | 9 0 IN: 7                      | fault 25
LOAD | 0 LOAD: 3 3 3 3 3 3 3          | fault 25
LOAD | 0 LOAD: 3 3 3 3 3 3 3 3        | fault 25
LOAD |                                | fault 12
LOAD | LOAD: 3 3 3 3 3 3 3 3          | fault 12
";

const NESTED: &str =
    "IN: 7 LOAD: 5 IN: 0 LOAD: 5 IN: 1024 LOAD: 9 IN: 100 LOAD: 65535 IN: 1 LOAD: 1 IN: 2 LOAD: 2 IN: 3 LOAD: 1 IN: 1023 LOAD: 4";

// BLK and >IN where their callers go on, the innermost load's first; then the line is finished.
const CALLERS: [Option<(u16, u16)>; 9] = [
    Some((1, 1023)),
    Some((2, 3)),
    Some((1, 2)),
    Some((65535, 1)),
    Some((9, 100)),
    Some((5, 1024)),
    Some((5, 0)),
    Some((3, 7)),
    None,
];

// Where the caller goes on.
fn ended(bench: &mut Bench) -> Option<(u16, u16)> {
    if !end_load(&mut bench.registers) {
        return None;
    }
    let position = bench.registers.seat.source.position;
    Some((position.blk, position.offset))
}

#[test]
fn loads_open(rt: HostRuntime) {
    tables_hold(&rt, &[("", OPENED)]);
}

#[test]
fn loads_end(rt: HostRuntime) {
    let mut bench = Bench::booted();
    assert!(rt; bench.become_machine("", NESTED).is_some());
    for caller in CALLERS {
        assert_eq!(rt; ended(&mut bench), caller);
    }
}
