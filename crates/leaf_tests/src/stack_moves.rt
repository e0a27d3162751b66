// Stack moves at cells and at marks.
use stacks::{drop_top, pick, push, roll};

// A pair as a mark is: these tests rest on the leaf crates alone.
#[derive(Clone, Copy, PartialEq, Eq)]
struct Mark {
    kind: u8,
    at: u16,
}

// 10, 20, 30 are pushed, 30 on top; the bottom one is rolled up, the top one dropped.
#[test]
fn cells(rt: HostRuntime) {
    let mut cells = [0u16; 4];
    let depth = push(&mut cells, 0, 10);
    let depth = push(&mut cells, depth, 20);
    let depth = push(&mut cells, depth, 30);
    assert_eq!(rt; pick(&cells, depth, 0), 30);
    assert_eq!(rt; pick(&cells, depth, 2), 10);
    roll(&mut cells, depth, 2);
    assert!(rt; cells == [20, 30, 10, 0]);
    let depth = drop_top(&cells, depth, 1);
    assert_eq!(rt; pick(&cells, depth, 0), 30);
}

#[test]
fn marks(rt: HostRuntime) {
    let mut marks = [Mark { kind: 0, at: 0 }; 2];
    let depth = push(&mut marks, 0, Mark { kind: 1, at: 300 });
    let depth = push(&mut marks, depth, Mark { kind: 4, at: 310 });
    roll(&mut marks, depth, 1);
    assert_eq!(rt; pick(&marks, depth, 0).at, 300);
    assert_eq!(rt; pick(&marks, drop_top(&marks, depth, 1), 0).kind, 4);
}
