//! The conditions that are seen at one place of a procedure.

ghost use Rattle.std.specs.Prelude.{◌≡◌, ℕ, ◌≤◌, nat_le, length, option_to_list};
ghost use Rattle.std.specs.List.{list_all};
ghost use Rattle.block_runs.specs.Blocks.{end_uses, successors};
ghost use Rattle.block_runs.specs.Valid.{makes, acts, serves, in_24_bits, fits, params_of, condition_fits, arguments_fit, all_below, size_of, enter_below};
ghost use Rattle.ssa_core.specs.Procedures.{operation_of, code_block, code_blocks};
ghost use Rattle.ssa_core.specs.Validity.{most};
ghost use Rattle.ssa_valid.specs.Form.{operation_formed, end_formed, block_formed, is_formed};

use ssa_core::{Block, Code, End, Op, Proc};

/// The most blocks and operations of a procedure together.
const MOST: usize = 500_000_000;

/// So many values are read, and one is made.
fn makes(count: usize, uses: usize, def: bool) -> bool
    ensures { result ≡ makes count uses def }
{
    uses == count && def
}

/// So many values are read, and none is made.
fn acts(count: usize, uses: usize, def: bool) -> bool
    ensures { result ≡ acts count uses def }
{
    uses == count && !def
}

fn serves(service: u16, uses: usize, def: bool) -> bool
    ensures { result ≡ serves service uses def }
{
    match service {
        1 => acts(1, uses, def),
        2 => acts(2, uses, def),
        3 => acts(3, uses, def),
        4 => makes(0, uses, def),
        _ => false,
    }
}

fn in_24_bits(number: u32) -> bool
    ensures { result ≡ in_24_bits number }
{
    number < 16_777_216
}

/// Whether an operation of a procedure with so many argument words may have so many uses, and a definition or none.
fn fits(args: u32, code: Code, uses: usize, def: bool) -> bool
    ensures { result ≡ fits args code uses def }
{
    match code {
        Code::Const(_) | Code::Code(_) => makes(0, uses, def),
        Code::Global(n) | Code::Local(n) => in_24_bits(n) && makes(0, uses, def),
        Code::Plus(n) => in_24_bits(n) && makes(1, uses, def),
        Code::Arg(i) => 4 <= i && (i < args && makes(0, uses, def)),
        Code::Load | Code::LoadByte | Code::Neg | Code::Not => makes(1, uses, def),
        Code::Abs | Code::Max0 | Code::Odd | Code::Flip | Code::Bit => makes(1, uses, def),
        Code::Add | Code::Sub | Code::And | Code::Or | Code::Eor => makes(2, uses, def),
        Code::Bic | Code::Lsl | Code::Asr | Code::Ror | Code::Mul => makes(2, uses, def),
        Code::Span | Code::Has | Code::Div | Code::Mod => makes(2, uses, def),
        Code::MulAdd | Code::New => makes(3, uses, def),
        Code::Compare => makes(4, uses, def),
        Code::Byte | Code::Elem | Code::NotNil | Code::True => acts(1, uses, def),
        Code::Store | Code::StoreByte | Code::Below | Code::Fits => acts(2, uses, def),
        Code::Zero => acts(2, uses, def),
        Code::Copy => acts(3, uses, def),
        Code::Set(condition) => condition < 14 && makes(2, uses, def),
        Code::IsPtr(level) | Code::IsTag(level) => level < 16 && makes(2, uses, def),
        Code::GuardPtr(level) | Code::GuardTag(level) => level < 16 && acts(2, uses, def),
        Code::Call(_) => uses <= 24,
        Code::CallAt => 1 <= uses && uses <= 25,
        Code::Svc(service) => serves(service, uses, def),
    }
}

fn all_below(limit: usize, numbers: &[u32]) -> bool
    ensures { result ≡ all_below limit numbers.now }
{
    numbers.iter().all(|number| (*number as usize) < limit)
}

fn some_below(limit: usize, number: Option<u32>) -> bool
    ensures { result ≡ all_below limit (option_to_list number) }
{
    match number {
        Some(number) => (number as usize) < limit,
        None => true,
    }
}

/// Whether an operation fits, over so many values.
fn operation_formed(args: u32, values: u32, op: &Op) -> bool
    ensures { result ≡ operation_formed args values (operation_of op.now) }
{
    fits(args, op.code, op.uses.len(), op.def.is_some())
        && (all_below(values as usize, op.uses.as_slice()) && some_below(values as usize, op.def))
}

fn operations_formed(args: u32, values: u32, ops: &[Op]) -> bool
    ensures { result ≡ list_all (λ op. operation_formed args values (operation_of op)) ops.now }
{
    ops.iter().all(|op| operation_formed(args, values, op))
}

/// How many parameters a block has; none where there is no such block.
fn params_of(blocks: &[Block], number: u32) -> usize
    ensures { result ≡ params_of (code_blocks blocks.now) number }
{
    match blocks.get(number as usize) {
        Some(block) => block.params.len(),
        None => 0,
    }
}

fn arguments_fit(blocks: &[Block], end: &End) -> bool
    ensures { result ≡ arguments_fit (code_blocks blocks.now) end.now }
{
    match end {
        End::Jump { to, args } => args.len() == params_of(blocks, *to),
        End::Branch { yes, no, .. } => params_of(blocks, *yes) == 0 && params_of(blocks, *no) == 0,
        End::Nonzero { yes, no, .. } => params_of(blocks, *yes) == 0 && params_of(blocks, *no) == 0,
        End::Return(_) | End::Trap(_) => true,
    }
}

fn condition_fits(end: &End) -> bool
    ensures { result ≡ condition_fits end.now }
{
    match end {
        End::Branch { cond, .. } => *cond < 14,
        _ => true,
    }
}

/// Whether the blocks to which an end leads are there.
fn targets_below(count: usize, end: &End) -> bool
    ensures { result ≡ all_below count (successors end.now) }
{
    match end {
        End::Jump { to, .. } => all_below(count, &[*to]),
        End::Branch { yes, no, .. } => all_below(count, &[*yes, *no]),
        End::Nonzero { yes, no, .. } => all_below(count, &[*yes, *no]),
        End::Return(_) | End::Trap(_) => true,
    }
}

/// Whether what an end reads are numbers of values.
fn reads_below(values: usize, end: &End) -> bool
    ensures { result ≡ all_below values (end_uses end.now) }
{
    match end {
        End::Jump { args, .. } => all_below(values, args.as_slice()),
        End::Branch { a, b, .. } => all_below(values, &[*a, *b]),
        End::Nonzero { a, .. } => all_below(values, &[*a]),
        End::Return(value) => some_below(values, *value),
        End::Trap(_) => true,
    }
}

fn end_formed(blocks: &[Block], values: u32, end: &End) -> bool
    ensures { result ≡ end_formed (code_blocks blocks.now) values end.now }
{
    targets_below(blocks.len(), end)
        && (reads_below(values as usize, end)
            && (condition_fits(end) && arguments_fit(blocks, end)))
}

fn enter_below(count: usize, enter: Option<u32>) -> bool
    ensures { result ≡ enter_below count enter }
{
    match enter {
        Some(number) => (number as usize) < count,
        None => true,
    }
}

fn block_formed(proc: &Proc, block: &Block) -> bool
    ensures { result ≡ block_formed proc.now block.now }
{
    all_below(proc.values as usize, block.params.as_slice())
        && (operations_formed(proc.args, proc.values, block.ops.as_slice())
            && (end_formed(proc.blocks.as_slice(), proc.values, &block.end)
                && enter_below(proc.blocks.len(), block.enter)))
}

fn blocks_formed(proc: &Proc, blocks: &[Block]) -> bool
    ensures { result ≡ list_all (block_formed proc.now) blocks.now }
{
    blocks.iter().all(|block| block_formed(proc, block))
}

/// Whether blocks and operations are few enough.
fn are_few(blocks: &[Block]) -> bool
    ensures { result ≡ nat_le (size_of (code_blocks blocks.now)) most }
{
    let mut left = MOST;
    for block in blocks {
        let ops = block.ops.len();
        if left <= ops {
            return false;
        }
        left -= ops + 1;
    }
    true
}

/// Whether all that is seen at one place is as it must be.
pub(crate) fn is_formed(proc: &Proc) -> bool
    ensures { result ≡ is_formed proc.now }
{
    let blocks = proc.blocks.as_slice();
    proc.args <= 24
        && (!blocks.is_empty()
            && (params_of(blocks, 0) == (proc.args as usize).min(4)
                && (are_few(blocks) && blocks_formed(proc, blocks))))
}
