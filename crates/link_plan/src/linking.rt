//! The image of flows.

ghost use Rattle.std.specs.Prelude.{◌≡◌, ◌∷◌, ◌++◌, ℕ, ◌+◌, ◌<◌, ◌≤◌, ◌^◌, ◌%◌, List, length, get_or, map, [], true, false, IfOk, OnOk, IfErr};
ghost use Rattle.std.specs.List.{list_all};
ghost use Rattle.a64_memory.specs.Memory.{AreBytes};
ghost use Rattle.image_form.specs.Form.{IsInForm};
ghost use Rattle.placed_code.specs.Words.{most_frame};
ghost use Rattle.placed_code.specs.Claims.{places_of, version_of};
ghost use Rattle.placed_code.specs.Results.{placed, all_placed};
ghost use Rattle.placed_code.specs.Layout.{all_words};
ghost use Rattle.linked_flows.specs.Allocations.{Cut, steps_of, allocated, all_allocated};
ghost use Rattle.link_blocks.specs.Fits.{numbers_fit};
ghost use Rattle.link_blocks.specs.Laid.{IsCutOf, Fits};
ghost use Rattle.link_blocks.specs.Plans.{placed_in, plain};
ghost use Rattle.procedure_pieces.specs.Pieces.{piece_of};
ghost use Rattle.procedure_pieces.specs.Linked.{begins};
ghost use Rattle.procedure_pieces.specs.Linked.{linked as linked_pieces};
ghost use Rattle.procedure_code.specs.Parts.{entry_at};
ghost use Rattle.procedure_code.specs.Views.{piece_in};
ghost use Rattle.link_plan.specs.Linked.{DataFits, NameAllOrNone, small_frame, IsUnnamedAndFar, IsAllocated, AreCuts, ArePieces, AreSmall, greatest_in, frame_of_cuts, pieces_of, Runs, linked};
ghost use Rattle.link_plan.specs.declared.fault.LinkFault.TheVariants.{Limit, Misfit};

use crate::fault::LinkFault;
use boundary_resolve::CodeLine;
use image_form::{Image, ProcPlace, ProcPlaces, Words};
use link_blocks::{Plan, PlanFault};
use link_layout::LayoutFault;
use lir_core::{Flow, TraceOut};
use placed_code::{ImageData, ProcName};
use procedure_code::{CodeWords, Piece, code_of, entry_at, piece_of};
use std::alloc::{AllocError, Global};

/// The bytes of the greatest frame in an image that names no procedure.
const SMALL_FRAME: u32 = 32_768;

/// The image of flows by their numbers, from each one's lines in code order and the results for its traces. A flow
/// whose calls aren't counted is the body of a module, and the bodies run in the order of their numbers. The data
/// names all flows, and the image has version 2, or none, and it has version 1. Globals and constants are of whole
/// cells of eight bytes, at most 8,388,608 and 2,097,152 bytes. `Limit` comes exactly where the code is over 262,144
/// words, `Misfit` for no sound results of flows whose numbers and frames are small enough: 65,536 bytes of a frame
/// in version 2, and 32,768 in version 1. Takes time in proportion to lines and words, and n log n for n homes. The
/// lines and results of a flow are let go once they are read.
pub fn link(
    alloc: Global,
    flows: &[Flow],
    parts: Vec<Vec<CodeLine>>,
    outs: Vec<Vec<TraceOut>>,
    extra: ImageData,
) -> Result<Image, LinkFault>
    requires extra { DataFits extra }
    requires names { NameAllOrNone extra.names (length flows.now) }
    ensures image { (k : ℕ) (cuts : List Cut) → AreCuts k flows.now (map (λ v. v.items) parts.items) (map (λ v. v.items) outs.items) cuts
        → IfOk result (λ image. image ≡ linked cuts extra) }
    ensures form { IfOk result IsInForm }
    ensures runs { (k : ℕ) (cuts : List Cut) (input : List ℕ) → AreCuts k flows.now (map (λ v. v.items) parts.items) (map (λ v. v.items) outs.items) cuts → AreBytes extra.constants
        → ((i : ℕ) → get_or input i 0 < 2 ^ 64) → IfOk result (λ image. Runs image cuts extra input) }
    ensures limit { IfErr result (λ fault. fault ≡ Limit → (k : ℕ) (cuts : List Cut) → AreCuts k flows.now (map (λ v. v.items) parts.items) (map (λ v. v.items) outs.items) cuts
        → 2 ^ 18 < length (all_words (all_placed steps_of (all_allocated cuts)))) }
    ensures misfit { IfErr result (λ fault. fault ≡ Misfit → (k : ℕ) (cuts : List Cut) → AreCuts k flows.now (map (λ v. v.items) parts.items) (map (λ v. v.items) outs.items) cuts
        → AreSmall cuts → IsUnnamedAndFar extra (frame_of_cuts cuts)) }
{
    let mut pieces = Vec::with_capacity(alloc, flows.len())?;
    add_pieces(alloc, &mut pieces, flows, parts, outs)?;
    image_of_pieces(alloc, pieces.as_slice(), extra)
}

/// Adds the pieces of flows, from each one's lines in code order and the results for its traces: `link` in parts, so
/// that flows can be let go before those behind them are made. `Misfit` comes for no sound results of flows whose
/// numbers and frames are small enough, and else `Limit` exactly where some procedure alone is longer than an image
/// may be. Takes time in proportion to lines and words, and n log n for n homes. The lines and results of a flow are
/// let go once they are read, and its plan once its words are made.
pub fn add_pieces(
    alloc: Global,
    pieces: &mut Vec<Piece>,
    flows: &[Flow],
    parts: Vec<Vec<CodeLine>>,
    outs: Vec<Vec<TraceOut>>,
) -> Result<(), LinkFault>
    ensures pieces { OnOk result ((k : ℕ) (cuts : List Cut) → AreCuts k flows.now (map (λ v. v.items) parts.items) (map (λ v. v.items) outs.items) cuts
        → map piece_in pieces.new.items ≡ map piece_in pieces.old.items ++ pieces_of cuts) }
    ensures count { OnOk result (length pieces.new.items ≡ length pieces.old.items + length flows.now) }
    ensures fits { OnOk result (list_all (λ f. numbers_fit f) flows.now ≡ true) }
    ensures limit { IfErr result (λ fault. fault ≡ Limit → (k : ℕ) (cuts : List Cut) → AreCuts k flows.now (map (λ v. v.items) parts.items) (map (λ v. v.items) outs.items) cuts
        → 2 ^ 18 < length (all_words (all_placed steps_of (all_allocated cuts)))) }
    ensures misfit { IfErr result (λ fault. fault ≡ Misfit → (k : ℕ) (cuts : List Cut) → AreCuts k flows.now (map (λ v. v.items) parts.items) (map (λ v. v.items) outs.items) cuts
        → AreSmall cuts → ⊥) }
{
    let mut parts = parts.into_iter();
    let mut outs = outs.into_iter();
    let mut room = true;
    for flow in flows {
        let lines = parts.next().ok_or(LinkFault::Misfit)?;
        let results = outs.next().ok_or(LinkFault::Misfit)?;
        let one = add_piece(alloc, pieces, flow, lines.as_slice(), results.as_slice())?;
        room &= one;
    }
    if room { Ok(()) } else { Err(LinkFault::Limit) }
}

/// Adds the piece of a flow where an image of it alone has room for it, and tells whether it has.
fn add_piece(
    alloc: Global,
    pieces: &mut Vec<Piece>,
    flow: &Flow,
    lines: &[CodeLine],
    outs: &[TraceOut],
) -> Result<bool, LinkFault>
    ensures piece { (k : ℕ) (c : Cut) → k ≤ 16 → IsAllocated k c → IsCutOf k flow.now lines.now outs.now c → IfOk result (λ room. room ≡ true
        → map piece_in pieces.new.items ≡ map piece_in pieces.old.items ++ piece_of (placed steps_of (allocated c)) ∷ []) }
    ensures count { IfOk result (λ room. room ≡ true → length pieces.new.items ≡ length pieces.old.items + 1) }
    ensures over { (k : ℕ) (c : Cut) → k ≤ 16 → IsAllocated k c → IsCutOf k flow.now lines.now outs.now c → IfOk result (λ room. room ≡ false
        → 2 ^ 18 < length (all_words (placed steps_of (allocated c) ∷ []))) }
    ensures fits { OnOk result (numbers_fit flow.now ≡ true) }
    ensures limit { IfErr result (λ fault. fault ≡ Limit → ⊥) }
    ensures misfit { IfErr result (λ fault. fault ≡ Misfit → (k : ℕ) (c : Cut) → IsCutOf k flow.now lines.now outs.now c → Fits c → ⊥) }
{
    match piece_of_lines(alloc, flow, lines, outs) {
        Ok(piece) => {
            pieces.push(piece)?;
            Ok(true)
        }
        Err(LinkFault::Limit) => Ok(false),
        Err(LinkFault::Misfit) => Err(LinkFault::Misfit),
        Err(LinkFault::Memory) => Err(LinkFault::Memory),
    }
}

/// The piece of a flow, from its lines in code order and the results for its traces. `Misfit` comes for no sound
/// results of a flow whose numbers and frame are small enough, and else `Limit` exactly where the flow alone is longer
/// than an image may be. Takes time in proportion to lines and words, and n log n for n homes.
pub fn piece_of_lines(
    alloc: Global,
    flow: &Flow,
    lines: &[CodeLine],
    outs: &[TraceOut],
) -> Result<Piece, LinkFault>
    ensures piece { (k : ℕ) (c : Cut) → k ≤ 16 → IsAllocated k c → IsCutOf k flow.now lines.now outs.now c
        → IfOk result (λ piece. piece_in piece ≡ piece_of (placed steps_of (allocated c))) }
    ensures fits { OnOk result (numbers_fit flow.now ≡ true) }
    ensures limit { IfErr result (λ fault. fault ≡ Limit → (k : ℕ) (c : Cut) → k ≤ 16 → IsAllocated k c → IsCutOf k flow.now lines.now outs.now c
        → 2 ^ 18 < length (all_words (placed steps_of (allocated c) ∷ []))) }
    ensures numbers { IfErr result (λ fault. fault ≡ Limit → numbers_fit flow.now ≡ true) }
    ensures misfit { IfErr result (λ fault. fault ≡ Misfit → (k : ℕ) (c : Cut) → IsCutOf k flow.now lines.now outs.now c → Fits c → ⊥) }
{
    let plan = plan_of(alloc, flow, lines, outs)?;
    match piece_of(alloc, &plan) {
        Ok(piece) => Ok(piece),
        Err(LayoutFault::Limit) => Err(LinkFault::Limit),
        Err(LayoutFault::Memory) => Err(LinkFault::Memory),
    }
}

/// The image of pieces, by the numbers of their flows. A flow whose calls aren't counted is the body of a module, and
/// the bodies run in the order of their numbers. The data names all pieces, and the image has version 2, or none, and
/// it has version 1. `Misfit` comes exactly where some frame is over 32,768 bytes in version 1, and else `Limit`
/// exactly where the code is over 262,144 words. Takes time in proportion to words.
pub fn image_of_pieces(
    alloc: Global,
    pieces: &[Piece],
    extra: ImageData,
) -> Result<Image, LinkFault>
    requires extra { DataFits extra }
    requires names { NameAllOrNone extra.names (length pieces.now) }
    ensures image { (k : ℕ) (cuts : List Cut) → ArePieces k (map piece_in pieces.now) cuts
        → IfOk result (λ image. image ≡ linked cuts extra) }
    ensures form { IfOk result IsInForm }
    ensures runs { (k : ℕ) (cuts : List Cut) (input : List ℕ) → ArePieces k (map piece_in pieces.now) cuts → AreBytes extra.constants
        → ((i : ℕ) → get_or input i 0 < 2 ^ 64) → IfOk result (λ image. Runs image cuts extra input) }
    ensures limit { IfErr result (λ fault. fault ≡ Limit → (k : ℕ) (cuts : List Cut) → ArePieces k (map piece_in pieces.now) cuts
        → 2 ^ 18 < length (all_words (all_placed steps_of (all_allocated cuts)))) }
    ensures misfit { IfErr result (λ fault. fault ≡ Misfit → IsUnnamedAndFar extra (greatest_in (map piece_in pieces.now))) }
{
    let ImageData {
        flags,
        globals,
        constants,
        names,
    } = extra;
    let names = names.as_slice();
    let frame = greatest_frame(pieces);
    if is_past(names, frame) {
        return Err(LinkFault::Misfit);
    }
    let CodeWords { words, entries } = words_of(alloc, pieces)?;
    let places = places_of(alloc, entries.as_slice(), names)?;
    Ok(Image {
        version: version_of(names),
        flags,
        code: Words::new(words),
        globals,
        constants,
        frame,
        places: ProcPlaces::new(places),
    })
}

/// Whether a frame is past what an image has that names no procedure.
fn is_past(names: &[ProcName], frame: u32) -> bool
    ensures past { result ≡ true → (names.now ≡ []) × (small_frame < frame) }
    ensures within { result ≡ false → names.now ≡ [] → frame ≤ small_frame }
{
    names.is_empty() && frame > SMALL_FRAME
}

/// The version of an image's form that has a place for each name.
fn version_of(names: &[ProcName]) -> u32
    ensures { result ≡ version_of names.now }
{
    if names.is_empty() { 1 } else { 2 }
}

/// Where named procedures begin, from where all of them do, and behind them where the last one ends.
fn places_of(
    alloc: Global,
    entries: &[u32],
    names: &[ProcName],
) -> Result<Vec<ProcPlace>, AllocError>
    ensures { IfOk result (λ places. places.items ≡ places_of (entry_at entries.now) 0 names.now) }
{
    let mut places = Vec::with_capacity(alloc, names.len())?;
    for (number, name) in names.iter().enumerate() {
        places.push(ProcPlace {
            word: entry_at(entries, number),
            module: name.module,
            line: name.line,
        })?;
    }
    Ok(places)
}

/// The plan of a flow.
fn plan_of(
    alloc: Global,
    flow: &Flow,
    lines: &[CodeLine],
    outs: &[TraceOut],
) -> Result<Plan, LinkFault>
    ensures plan { (k : ℕ) (c : Cut) → IsCutOf k flow.now lines.now outs.now c → IfOk result (λ plan. placed_in plan ≡ plain (placed steps_of (allocated c))) }
    ensures fits { IfOk result (λ plan. numbers_fit flow.now ≡ true) }
    ensures limit { IfErr result (λ fault. fault ≡ Limit → ⊥) }
    ensures misfit { IfErr result (λ fault. fault ≡ Misfit → (k : ℕ) (c : Cut) → IsCutOf k flow.now lines.now outs.now c → Fits c → ⊥) }
{
    match Plan::of(alloc, flow, lines, outs) {
        Ok(plan) => Ok(plan),
        Err(PlanFault::Misfit) => Err(LinkFault::Misfit),
        Err(PlanFault::Memory) => Err(LinkFault::Memory),
    }
}

/// The bytes of the greatest frame.
fn greatest_frame(pieces: &[Piece]) -> u32
    ensures greatest { result ≡ greatest_in (map piece_in pieces.now) }
    ensures most { result ≤ most_frame }
    ensures whole { result % 8 ≡ 0 }
{
    let mut frame = 0;
    let mut i = pieces.len();
    while i > 0 {
        i -= 1;
        frame = pieces[i].frame.max(frame);
    }
    frame
}

/// The code words of pieces, and where each begins.
fn words_of(alloc: Global, pieces: &[Piece]) -> Result<CodeWords, LinkFault>
    ensures code { IfOk result (λ code. code.words.items ≡ linked_pieces (map piece_in pieces.now)) }
    ensures entries { IfOk result (λ code. (p : ℕ) → entry_at code.entries.items p ≡ begins (map piece_in pieces.now) p) }
    ensures fits { IfOk result (λ code. length (linked_pieces (map piece_in pieces.now)) ≤ 2 ^ 18) }
    ensures limit { IfErr result (λ fault. fault ≡ Limit → 2 ^ 18 < length (linked_pieces (map piece_in pieces.now))) }
    ensures misfit { IfErr result (λ fault. fault ≡ Misfit → ⊥) }
{
    match code_of(alloc, pieces) {
        Ok(code) => Ok(code),
        Err(LayoutFault::Limit) => Err(LinkFault::Limit),
        Err(LayoutFault::Memory) => Err(LinkFault::Memory),
    }
}
