//! A small module, and the greatest. What is wanted comes from an independent program.

use bulk_text::bulk_text;
use std::test::Fail;

/// The module of seed 7 and size 2.
const MODULE: &str = "MODULE Bulk; IMPORT Out;
PROCEDURE P0(a, b: INTEGER): INTEGER; VAR c, d, i: INTEGER; BEGIN c := a; d := b;
i := 0; WHILE i < 16 DO c := c + d; i := i + 1 END;
IF c < d THEN c := d - 2 ELSE d := d + 2 END;
IF c < d THEN c := d - 4 ELSE d := d + 4 END;
c := c * 5 + d;
d := d DIV 7 + c MOD 7;
d := d DIV 4 + c MOD 4;
c := c * 1 + d;
IF c < d THEN c := d - 3 ELSE d := d + 3 END;
RETURN c + d END P0;
PROCEDURE P1(a, b: INTEGER): INTEGER; VAR c, d, i: INTEGER; BEGIN c := a; d := b;
IF c < d THEN c := d - 4 ELSE d := d + 4 END;
c := c * 16 + d;
c := c * 2 + d;
i := 0; WHILE i < 3 DO c := c + d; i := i + 1 END;
IF c < d THEN c := d - 1 ELSE d := d + 1 END;
c := c * 10 + d;
IF c < d THEN c := d - 1 ELSE d := d + 1 END;
c := c * 14 + d;
RETURN P0(c, d) END P1;
BEGIN Out.Int(P1(1, 2), 0); Out.Ln END Bulk.
";

#[test]
fn a_module_of_two_procedures(rt: HostRuntime) -> Result<(), Fail> {
    let text = bulk_text(rt.alloc(), 7, 2)?;
    assert_eq!(rt; text.as_slice(), MODULE.as_bytes());
    Ok(())
}

#[test]
fn a_module_of_a_thousand_procedures(rt: HostRuntime) -> Result<(), Fail> {
    let text = bulk_text(rt.alloc(), 7, 1_000)?;
    assert_eq!(rt; text.len(), 390_461);
    Ok(())
}
