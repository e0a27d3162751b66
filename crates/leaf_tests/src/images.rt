// Bytes and cells of a small image.
use image::{append, fetch, fill, move_up, store};

#[test]
fn bytes_and_cells(rt: HostRuntime) {
    let mut image = [0u8; 8];
    store(&mut image, 2, 0x1234);
    assert!(rt; image == [0, 0, 0x34, 0x12, 0, 0, 0, 0]);
    assert_eq!(rt; fetch(&image, 1), 0x3400);
    fill(&mut image, 5, 2, 9);
    assert!(rt; image == [0, 0, 0x34, 0x12, 0, 9, 9, 0]);
    assert_eq!(rt; append(&mut image, 6, b"AB"), 8);
    assert!(rt; image == [0, 0, 0x34, 0x12, 0, 9, 65, 66]);
}

// Down it copies, up by one it repeats the first byte.
#[test]
fn moves(rt: HostRuntime) {
    let mut image = *b"ABCDEF";
    move_up(&mut image, 2, 0, 3);
    assert!(rt; image == *b"CDEDEF");
    move_up(&mut image, 0, 1, 4);
    assert!(rt; image == *b"CCCCCF");
}
