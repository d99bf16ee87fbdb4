//! Lists that are read, and lists that aren't.

use batch_list::{ListFault, read_list};
use std::test::*;

#[test]
fn three_lines(rt: HostRuntime) -> Result<(), Fail> {
    let lines = read_list(rt.alloc(), b"0 A.Mod B.Mod\n1 M.Mod\n0 Missing.Mod\n")?;
    assert_eq!(rt; lines.len(), 3);
    assert_eq!(rt; lines[0].sender, 0);
    assert_eq!(rt; lines[0].names.len(), 2);
    assert_eq!(rt; lines[0].names[1].as_slice(), b"B.Mod".as_slice());
    assert_eq!(rt; lines[1].sender, 1);
    assert_eq!(rt; lines[2].names.len(), 1);
    assert_eq!(rt; lines[2].names[0].as_slice(), b"Missing.Mod".as_slice());
    assert_eq!(rt; read_list(rt.alloc(), b"")?.len(), 0);
    Ok(())
}

#[test]
fn bad_lines(rt: HostRuntime) -> Result<(), Fail> {
    for (text, line) in [
        (b"2 M.Mod\n".as_slice(), 1),
        (b"0 M.Mod".as_slice(), 1),
        (b"0 M.Mod\n1\n".as_slice(), 2),
        (b"0 M.Mod\n1 \n".as_slice(), 2),
        (b"0 M.Mod\n\n2\n".as_slice(), 2),
        (b"0 A  B\n".as_slice(), 1),
        (b"0 A \n".as_slice(), 1),
        (b" 0 A\n".as_slice(), 1),
        (b"00 A\n".as_slice(), 1),
        (b"\n".as_slice(), 1),
    ] {
        assert!(rt; text.len() <= 1048576);
        match read_list(rt.alloc(), text) {
            Err(fault) => assert_eq!(rt; fault, ListFault::BadLine { line }),
            Ok(_) => assert!(rt; false, "read"),
        }
    }
    Ok(())
}
