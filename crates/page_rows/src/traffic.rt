//! What the code of a procedure moves.

ghost use Rattle.std.specs.Prelude.{◌≡◌, count_by, slice_get};
ghost use Rattle.std.specs.List.{list_any};
ghost use Rattle.lir_core.specs.declared.places.Move.{Move};
ghost use Rattle.alloc_choice.specs.Choice.{freq_of as frequency_in};
ghost use Rattle.page_rows.specs.Traffic.{added, freq_behind, is_home, is_of, is_of_node, is_of_step, own_weight, traffic_of, weighed};

use boundary_resolve::{CodeLine, Step};
use lir_core::{Flow, Line, Move, Node, Place};

/// A kind of lines: those that write homes, those that read homes, or moves.
#[derive(Clone, Copy)]
enum Kind {
    Store,
    Load,
    Move,
}

/// How many lines of a procedure's code store to homes, load from homes, and move, steps of edges among them; and how often those that
/// store or load run, where the procedure's entry runs 2^20 times, up to 2^64 - 1.
#[derive(Clone, Copy)]
pub struct Traffic {
    pub stores: usize,
    pub loads: usize,
    pub moves: usize,
    pub weight: u64,
}

// Whether a place is a home.
fn is_home(place: Place) -> bool
    ensures { result ≡ is_home place }
{
    matches!(place, Place::Home(_))
}

// Whether some move reads a home.
fn reads_home(moves: &[Move]) -> bool
    ensures { result ≡ list_any (λ (m : Move). is_home m.from) moves.now }
{
    moves.iter().any(|m| is_home(m.from))
}

// Whether a line of a node is of a kind.
fn is_of_node(kind: Kind, line: &Line) -> bool
    ensures { result ≡ is_of_node kind line.now }
{
    match (kind, line) {
        (Kind::Store, Line::Store { .. }) => true,
        (Kind::Load, Line::Load { .. }) => true,
        (Kind::Load, Line::Moves(moves)) => reads_home(moves.as_slice()),
        (Kind::Load, Line::Target(place)) => is_home(*place),
        (Kind::Move, Line::Moves(_)) => true,
        (Kind::Move, Line::Result(_)) => true,
        (Kind::Move, Line::Target(_)) => true,
        _ => false,
    }
}

// Whether a step of an edge is of a kind.
fn is_of_step(kind: Kind, step: Step) -> bool
    ensures { result ≡ is_of_step kind step }
{
    match (kind, step) {
        (Kind::Store, Step::Copy { to, .. }) => is_home(to),
        (Kind::Store, Step::Save(_)) => false,
        (Kind::Store, Step::Restore(to)) => is_home(to),
        (Kind::Load, Step::Copy { from, .. }) => is_home(from),
        (Kind::Load, Step::Save(from)) => is_home(from),
        (Kind::Load, Step::Restore(_)) => false,
        (Kind::Move, _) => true,
    }
}

// Whether a line of code is of a kind.
fn is_of(kind: Kind, line: &CodeLine) -> bool
    ensures { result ≡ is_of kind line.now }
{
    match line {
        CodeLine::Body(line) => is_of_node(kind, line),
        CodeLine::Edge(step) => is_of_step(kind, *step),
        CodeLine::Node(_) => false,
        CodeLine::Leave(_) => false,
    }
}

// How many lines are of a kind.
fn count_of(kind: Kind, lines: &[CodeLine]) -> usize
    ensures { result ≡ count_by (is_of kind) lines.now }
{
    let mut count: usize = 0;
    for line in lines {
        if is_of(kind, line) {
            count += 1;
        }
    }
    count
}

// How often a line runs that stores or loads a home.
fn own_weight(freq: u64, line: &CodeLine) -> u64
    ensures { result ≡ own_weight freq line.now }
{
    if is_of(Kind::Store, line) || is_of(Kind::Load, line) {
        freq
    } else {
        0
    }
}

// How often a node runs.
fn freq_of(nodes: &[Node], number: u32) -> u64
    ensures { result ≡ frequency_in (slice_get nodes.now number) }
{
    match nodes.get(number as usize) {
        Some(node) => node.freq,
        None => 0,
    }
}

// How often the lines behind a line run.
fn freq_behind(nodes: &[Node], freq: u64, line: &CodeLine) -> u64
    ensures { result ≡ freq_behind nodes.now freq line.now }
{
    match line {
        CodeLine::Node(number) => freq_of(nodes, *number),
        CodeLine::Body(_) => freq,
        CodeLine::Edge(_) => freq,
        CodeLine::Leave(_) => freq,
    }
}

// How often stores and loads of homes run.
fn weighed(nodes: &[Node], lines: &[CodeLine]) -> u64
    ensures { result ≡ weighed nodes.now 0 0 lines.now }
{
    let mut freq: u64 = 0;
    let mut weight: u64 = 0;
    for line in lines {
        weight = weight.saturating_add(own_weight(freq, line));
        freq = freq_behind(nodes, freq, line);
    }
    weight
}

/// What the code of a procedure moves, by its lines. Takes time in proportion to them.
pub fn traffic_of(flow: &Flow, lines: &[CodeLine]) -> Traffic
    ensures { result ≡ traffic_of flow.now.nodes lines.now }
{
    Traffic {
        stores: count_of(Kind::Store, lines),
        loads: count_of(Kind::Load, lines),
        moves: count_of(Kind::Move, lines),
        weight: weighed(flow.nodes.as_slice(), lines),
    }
}
