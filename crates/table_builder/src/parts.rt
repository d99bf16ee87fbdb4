//! By what a procedure type is found.

ghost use Rattle.std.specs.Prelude.{◌≡◌, IfOk};
ghost use Rattle.table_builder.specs.Index.{bit as bit_of, signature_parts as parts_of};

use ob_types::Formal;
use outside::Memory;
use std::alloc::Global;

// 1 or 0.
fn bit(value: bool) -> u32
    ensures { result ≡ bit_of value }
{
    if value { 1 } else { 0 }
}

/// Of each parameter whether it is a VAR parameter and its type, and the result's type.
pub fn signature_parts(
    alloc: Global,
    formals: &[Formal],
    result_type: u32,
) -> Result<Vec<u32>, Memory>
    ensures { IfOk result (λ v. v.items ≡ parts_of formals.now result_type) }
{
    let mut parts = Vec::new(alloc);
    for formal in formals {
        parts.push(bit(formal.variable))?;
        parts.push(formal.type_number)?;
    }
    parts.push(result_type)?;
    Ok(parts)
}
