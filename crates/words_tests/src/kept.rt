//! What is kept of what was written last.

use status_words::{LastSaid, Overheard};
use std::cell::RefCell;
use std::io::Write;

#[test]
fn the_last_write_is_kept(rt: HostRuntime) {
    let last = RefCell::new(LastSaid::make());
    let mut room = [0u8; 12];
    let mut writer = Overheard::new(room.as_mut_slice(), &last);
    for text in ["PAIR", "ST"] {
        writer.write_all(text.as_bytes()).expect(&rt, "room");
    }
    assert_eq!(rt;
        last.try_borrow().expect(&rt, "free").as_bytes(),
        b"ST".as_slice()
    );
    // 6 of 12 bytes are left: what does not fit was not written.
    assert!(rt; writer.write_all(b"STATUS 13\n").is_err());
    assert_eq!(rt;
        last.try_borrow().expect(&rt, "free").as_bytes(),
        b"STATUS".as_slice()
    );
}
