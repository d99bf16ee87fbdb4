//! Numbers as texts; what is wanted is the report's `Out.Int`, made by another program.

use out_text::IntText;

// The texts are those of the report's Out.Int, made by another program.
#[test]
fn texts(rt: HostRuntime) {
    let least: u64 = 1 << 63;
    assert_eq!(rt; IntText::new(5, 3).as_slice(), b"  5".as_slice());
    assert_eq!(rt; IntText::new(u64::MAX, 0).as_slice(), b"-1".as_slice());
    assert_eq!(rt; IntText::new(0, u64::MAX).as_slice(), b"0".as_slice());
    assert_eq!(rt;
        IntText::new(least, 4).as_slice(),
        b"-9223372036854775808".as_slice()
    );
    assert_eq!(rt; IntText::new(7, 300).as_slice().len(), 255);
    assert_eq!(rt; IntText::new(7, least).as_slice().len(), 1);
}
