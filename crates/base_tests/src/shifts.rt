//! Shifts and turns as a processor gave them.

use wrapping_numbers::{asr, lsl, lsr, ror};

#[test]
fn shifts_and_turns(rt: HostRuntime) {
    assert_eq!(rt; lsl(1, 65), 2);
    assert_eq!(rt; lsr(4, 65), 2);
    assert_eq!(rt; asr(0xfedc_ba98_7654_3210, 2), 0xffb7_2ea6_1d95_0c84);
    assert_eq!(rt; ror(0xfedc_ba98_7654_3210, 0x3e), 0xfb72_ea61_d950_c843);
}
