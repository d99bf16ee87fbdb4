//! A procedure's blocks, from the pieces that were made and the blocks that labels stand for.

ghost use Rattle.std.specs.Prelude.{◌≡◌, ◌≤◌, ℕ, List, [], ◌∷◌, replicate, length, slice_index, min, None, IfOk, OnOk};
ghost use Rattle.block_runs.specs.declared.end.End.{End as EndThere};
ghost use Rattle.ssa_lowered.specs.Pieces.{numbers};
ghost use Rattle.ssa_exprs.specs.declared.making.Piece.{Piece as PieceThere};
ghost use Rattle.ssa_exprs.specs.Making.{resolve, resolved, resolve_end};
ghost use Rattle.ssa_build.specs.Blocks.{placed_at, finished, blocks_by};

use block_runs::{End, Numbers};
use items::Items;
use outside::Memory;
use ssa_core::{Block, Op};
use ssa_exprs::{Bound, Piece};
use std::alloc::Global;
use std::mem::replace;

/// How a block begins.
#[derive(Drop)]
pub struct Head {
    pub params: Numbers,
    pub freq: u64,
    pub enter: Option<u32>,
}

/// Blocks that are complete, and the one that is open.
#[derive(Drop)]
pub struct Blocks {
    pub done: Items<Block>,
    pub head: Head,
    pub ops: Items<Op>,
}

/// The block of each label.
pub fn places(alloc: Global, labels: u32, bounds: &[Bound]) -> Result<Vec<u32>, Memory>
    ensures { IfOk result (λ list. list.items ≡ placed_at bounds.now (replicate labels 0)) }
{
    let mut list = vec![in alloc; 0; labels as usize]?;
    for x in bounds {
        let at = x.label as usize;
        if at < list.len() {
            list[at] = x.block;
        }
    }
    Ok(list)
}

/// The block of a label.
fn place_in(places: &[u32], label: u32) -> u32
    ensures { result ≡ slice_index places.now label }
{
    let at = label as usize;
    if at < places.len() { places[at] } else { 0 }
}

/// An end with blocks in the place of labels.
fn placed_end(places: &[u32], end: End) -> End
    ensures { result ≡ resolve_end (λ t. slice_index places.now t) end }
{
    match end {
        End::Jump { to, args } => End::Jump {
            to: place_in(places, to),
            args,
        },
        End::Branch {
            cond,
            a,
            b,
            yes,
            no,
        } => End::Branch {
            cond,
            a,
            b,
            yes: place_in(places, yes),
            no: place_in(places, no),
        },
        End::Nonzero { a, yes, no } => End::Nonzero {
            a,
            yes: place_in(places, yes),
            no: place_in(places, no),
        },
        End::Return(a) => End::Return(a),
        End::Trap(kind) => End::Trap(kind),
    }
}

/// The open block gets its end.
fn block(head: Head, ops: Items<Op>, end: End) -> Block
    ensures { result ≡ record { params = head.params; ops = ops; end = end; freq = head.freq; enter = head.enter } }
{
    let Head {
        params,
        freq,
        enter,
    } = head;
    Block {
        params,
        ops,
        end,
        freq,
        enter,
    }
}

/// The operations of a block, in a list that has no more room than they need. The list that they were in keeps its room.
fn taken(alloc: Global, ops: &mut Items<Op>) -> Result<Items<Op>, Memory>
    ensures own { IfOk result (λ own. own ≡ ops.old) }
    ensures rest { OnOk result (ops.new ≡ []) }
{
    let mut rest = replace(ops, Items::new(alloc)).into_vec();
    let mut own = Vec::with_capacity(alloc, rest.len())?;
    own.append(&mut rest)?;
    *ops = Items::from_vec(rest);
    Ok(Items::from_vec(own))
}

/// One more piece.
fn add(alloc: Global, places: &[u32], blocks: &mut Blocks, piece: Piece) -> Result<(), Memory>
    ensures { OnOk result ((rest : List PieceThere) (last : EndThere)
        → finished blocks.new last rest ≡ finished blocks.old last (resolve (λ t. slice_index places.now t) piece ∷ rest)) }
{
    match piece {
        Piece::Adds(op) => {
            blocks.ops.push(op)?;
            Ok(())
        }
        Piece::Ends {
            end,
            params,
            freq,
            enter,
        } => {
            let ops = taken(alloc, &mut blocks.ops)?;
            let next = Head {
                params,
                freq,
                enter,
            };
            let head = replace(&mut blocks.head, next);
            blocks.done.push(block(head, ops, placed_end(places, end)))?;
            Ok(())
        }
    }
}

/// The first argument words, which are parameters of the first block.
fn first_params(alloc: Global, words: u32) -> Result<Numbers, Memory>
    ensures { IfOk result (λ list. list ≡ numbers 0 (min words 4)) }
{
    let mut list = Numbers::new(alloc);
    for i in 0..words.min(4) {
        list.push(i)?;
    }
    Ok(list)
}

/// The blocks of a procedure with so many argument words; the last block gets this end. Room is taken for `count` blocks at
/// once.
pub fn all_blocks(
    alloc: Global,
    places: &[u32],
    pieces: Vec<Piece>,
    count: usize,
    words: u32,
    last: End,
) -> Result<Items<Block>, Memory>
    ensures { IfOk result (λ list. list ≡ blocks_by (record { params = numbers 0 (min words 4); freq = 1048576; enter = None })
        [] last (resolved (λ t. slice_index places.now t) pieces.items)) }
{
    let params = first_params(alloc, words)?;
    let head = Head {
        params,
        freq: 1048576,
        enter: None,
    };
    let done = Items::from_vec(Vec::with_capacity(alloc, count)?);
    let blocks = Blocks {
        done,
        head,
        ops: Items::new(alloc),
    };
    let blocks = add_all(alloc, places, blocks, pieces)?;
    let Blocks {
        mut done,
        head,
        ops,
    } = blocks;
    done.push(block(head, ops, last))?;
    Ok(done)
}

/// All pieces, one after the other.
fn add_all(
    alloc: Global,
    places: &[u32],
    blocks: Blocks,
    pieces: Vec<Piece>,
) -> Result<Blocks, Memory>
    ensures { IfOk result (λ new. (last : EndThere) → finished new last [] ≡ finished blocks last (resolved (λ t. slice_index places.now t) pieces.items)) }
{
    let mut blocks = blocks;
    for piece in pieces {
        add(alloc, places, &mut blocks, piece)?;
    }
    Ok(blocks)
}
