//! Places in a small text, and names.

use std::test::Fail;
use trc_answers::{limit_name, position_of, rule_name};

#[test]
fn places_count_lines_and_columns(rt: HostRuntime) -> Result<(), Fail> {
    let text = b"MODULE M;\nBEGIN\n\nEND M.";
    for (at, line, column) in [
        (0, 1, 1),
        (9, 1, 10),
        (10, 2, 1),
        (16, 3, 1),
        (17, 4, 1),
        (20, 4, 4),
        (99, 4, 7),
    ] {
        let place = position_of(text, at);
        assert!(rt; place.line == line && place.column == column);
    }
    assert!(rt; rule_name(36) == "Redeclared");
    assert!(rt; limit_name(59) == b"Locals".as_slice());
    assert!(rt; limit_name(70) == b"JobBytes".as_slice());
    assert!(rt; rule_name(50).is_empty());
    Ok(())
}
