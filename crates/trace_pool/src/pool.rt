//! The pool and its seats.

ghost use Rattle.std.specs.Prelude.{◌≡◌, ℕ, ◌+◌, ◌<◌, ◌≤◌, List, [], length, vec_capacity, IfOk, Some};
ghost use Rattle.pool_core.specs.Events.{AtRest};
ghost use Rattle.pool_core.specs.Fits.{FitsRun};
ghost use Rattle.pool_core.specs.Tree.{children, IsTree};
ghost use Rattle.trace_pool.specs.Plays.{first, trace_of, count_of, cut, part_of, both_views};
ghost use Rattle.trace_pool.specs.Slots.{all_shares, SawNoMore};
ghost use Rattle.trace_pool.specs.Ends.{ClosedAs, done_of};
ghost use Rattle.trace_pool.specs.Sits.{Waits, MayStop, IsStopping, IsNext, with_child, HintsFit};
ghost use Rattle.trace_pool.specs.Sits.{drawn_view, waiting_view, giving_up_view, taken_view, stopped_view, finished_view};
ghost use Rattle.pool_core.specs.declared.model.Stage.TheVariants as stage;

use crate::opening::{first_words, parents_of};
use crate::parts::{Content, View};
use crate::plays::{
    Both, Completed, Cut, Drew, Ended, Halted, Looked, Order, Reserved, Saw, Showed,
};
use atomic_table::Table;
use pool_core::{ChildIndex, Memory, Stage, Work};
use std::alloc::Global;

const HEAD: usize = 0;

const TAIL: usize = 1;

const FINISHED: usize = 2;

const MARK: usize = 3;

const CELLS: usize = 4;

/// The traces of a work, those that are shown, and what their slots have. Threads share it by reference, each with a
/// seat of its own.
#[derive(Drop)]
pub struct Pool<W: Work> {
    pub(crate) table: Table<
        Option<Content<W::Hint, W::Done>>,
        View<Option<W>>,
        W,
        Order<W>,
        Global,
    >,
    ghost sized: { table.shared.table_id.words ≡ table.shared.table_id.slots + 4 },
    results: Vec<Option<W::Done>>,
    pub(crate) children: ChildIndex,
    ghost small: { table.shared.table_id.slots ≤ 262144 },
    ghost empty: { results.items ≡ [] },
    ghost room: { table.shared.table_id.slots ≤ vec_capacity results },
}

/// A worker's place at a pool.
#[derive(Drop)]
pub struct Seat<W: Work> {
    pub(crate) seat: atomic_table::Seat<Option<Content<W::Hint, W::Done>>, View<Option<W>>>,
    pub(crate) stage: Stage,
    ghost same: { stage ≡ seat.me.0.worker.stage },
}

/// What a draw found.
#[derive(Clone, Copy, PartialEq, Eq, Debug)]
pub enum Draw {
    /// A ticket.
    Drawn,
    /// No cell was left.
    NoMore,
}

/// What a look found.
#[derive(Drop)]
pub enum Look<W: Work> {
    /// The cell shows this trace, which the seat then has. A trace with a parent has a hint.
    Task { trace: u32, hint: Option<W::Hint> },
    /// The cell is empty, and the stop mark unset.
    NotYet,
    /// The cell is empty, and the stop mark set: the seat is stopped.
    Stopped,
}

impl<W: Work> Seat<W> {
    ghost use Rattle.trace_pool.specs.Draws.{MatchDraw};
    ghost use Rattle.trace_pool.specs.Seats.{IsSeatOf, work_of, view_of, stage_of, share_of, draws_of, finished_of, trail_of, HasFinishedAll};

    /// Takes the next ticket. It neither waits nor takes memory.
    pub fn draw(&mut self, pool: &Pool<W>) -> Draw
        requires sits { IsSeatOf W.parents pool.now self.old }
        requires idle { stage_of self.old ≡ stage.Idle }
        requires share { draws_of self.old < share_of self.old }
        ensures sits { IsSeatOf W.parents pool.now self.new }
        ensures stage { MatchDraw result (Waits (stage_of self.new)) ((stage_of self.new ≡ stage.Idle) × SawNoMore (trail_of self.new)) }
        ensures seen { let P = W.parents (work_of pool.now) in
            (r : ℕ) × (view_of self.new ≡ drawn_view P (view_of self.old) r) × MatchDraw result (r < length P) (length P ≤ r) }
    {
        let found = pool
            .table
            .shared
            .fetch_add::<Drew<W>>(&mut self.seat, HEAD, 1);
        if found < pool.table.slot_count() as u64 {
            self.stage = Stage::Ticket(found as u32);
            Draw::Drawn
        } else {
            Draw::NoMore
        }
    }

    /// Looks into the ticket's cell, and takes what it shows. It neither waits nor takes memory.
    pub fn look(&mut self, pool: &Pool<W>) -> Look<W>
        requires sits { IsSeatOf W.parents pool.now self.old }
        requires ticket { Waits (stage_of self.old) }
        ensures sits { IsSeatOf W.parents pool.now self.new }
        ensures worker { (draws_of self.new ≡ draws_of self.old) × (share_of self.new ≡ share_of self.old) }
        ensures not_yet { result ≡ Look.NotYet → (stage_of self.new ≡ stage_of self.old) × (view_of self.new ≡ waiting_view (view_of self.old)) }
        ensures stopped { result ≡ Look.Stopped → (stage_of self.new ≡ stage.Stopped) × (view_of self.new ≡ giving_up_view (view_of self.old)) }
        ensures task { (t : ℕ) (hint : _) → result ≡ Look.Task t hint → (stage_of self.new ≡ stage.Trace t 0)
            × (view_of self.new ≡ taken_view (view_of self.old) t)
            × FitsRun (W.parents (work_of pool.now)) (W.is_hint (work_of pool.now) t) t hint }
    {
        let Stage::Ticket(cell) = self.stage else {
            unreachable!()
        };
        let found = pool
            .table
            .shared
            .load::<Looked<W>>(&mut self.seat, cell as usize + CELLS);
        if found == 0 {
            if pool.table.shared.load::<Saw>(&mut self.seat, MARK) == 0 {
                return Look::NotYet;
            }
            self.stage = Stage::Stopped;
            return Look::Stopped;
        }
        let trace = (found - 1) as u32;
        self.stage = Stage::Trace(trace, 0);
        let hint = match pool
            .table
            .shared
            .exchange(&mut self.seat, trace as usize, None)
        {
            Some(Content::Hint(hint)) => Some(hint),
            Some(Content::Done(_)) => unreachable!(),
            None => None,
        };
        Look::Task { trace, hint }
    }

    // Reserves a cell for the next child, puts the child's hint into its slot, and shows it.
    fn put_child(&mut self, pool: &Pool<W>, child: u32, hint: W::Hint)
        requires sits { IsSeatOf W.parents pool.now self.old }
        requires next { IsNext (W.parents (work_of pool.now)) (stage_of self.old) child }
        requires fits { W.is_hint (work_of pool.now) child hint }
        ensures sits { IsSeatOf W.parents pool.now self.new }
        ensures stage { stage_of self.new ≡ stage.Trace (trace_of (stage_of self.old)) (count_of (stage_of self.old) + 1) }
        ensures seen { (p : ℕ) × (view_of self.new ≡ with_child (view_of self.old) p) }
    {
        let Stage::Trace(trace, shown) = self.stage else {
            unreachable!()
        };
        let shared = &pool.table.shared;
        let place = shared.fetch_add::<Reserved<W>>(&mut self.seat, TAIL, 1);
        self.stage = Stage::Placed(trace, shown, place as u32);
        drop(shared.exchange(&mut self.seat, child as usize, Some(Content::Hint(hint))));
        shared.store::<Showed<W>>(&mut self.seat, place as usize + CELLS, child as u64 + 1);
        self.stage = Stage::Trace(trace, shown + 1);
    }

    /// Shows each child of the seat's trace with its hint, in rising order, and leaves the trace's final result in its
    /// slot. It neither waits nor takes memory.
    pub fn finish(&mut self, pool: &Pool<W>, done: W::Done, hints: Vec<(u32, W::Hint)>)
        requires sits { IsSeatOf W.parents pool.now self.old }
        requires trace { stage_of self.old ≡ stage.Trace (trace_of (stage_of self.old)) 0 }
        requires result { W.is_final (work_of pool.now) (trace_of (stage_of self.old)) done }
        requires fits { let P = W.parents (work_of pool.now) in
            HintsFit (W.is_hint (work_of pool.now)) (children P (trace_of (stage_of self.old))) hints.items }
        ensures sits { IsSeatOf W.parents pool.now self.new }
        ensures stage { stage_of self.new ≡ stage.Idle }
        ensures seen { let P = W.parents (work_of pool.now) in let t = trace_of (stage_of self.old) in
            (places : List ℕ) × (view_of self.new ≡ finished_view P (view_of self.old) t places) × (length places ≡ length (children P t)) }
    {
        let Stage::Trace(trace, _) = self.stage else {
            unreachable!()
        };
        for (child, hint) in hints {
            self.put_child(pool, child, hint);
        }
        let shared = &pool.table.shared;
        drop(shared.exchange(&mut self.seat, trace as usize, Some(Content::Done(done))));
        shared.fetch_add::<Ended<W>>(&mut self.seat, FINISHED, 1);
        self.stage = Stage::Idle;
    }

    /// Sets the stop mark. What the seat has is given up. It neither waits nor takes memory.
    pub fn stop(&mut self, pool: &Pool<W>)
        requires sits { IsSeatOf W.parents pool.now self.old }
        requires may { MayStop (stage_of self.old) }
        ensures sits { IsSeatOf W.parents pool.now self.new }
        ensures stopped { (stage_of self.new ≡ stage.Stopped) × (view_of self.new ≡ stopped_view (view_of self.old)) }
    {
        self.empty_slot(pool);
        pool.table.shared.store::<Halted>(&mut self.seat, MARK, 1);
        self.stage = Stage::Stopped;
    }

    // The last seat, idle after a NoMore, has finished every trace.
    pub(crate) fn complete(&mut self, pool: &Pool<W>)
        requires sits { IsSeatOf W.parents pool.now self.old }
        ensures sits { IsSeatOf W.parents pool.now self.new }
        ensures same { (stage_of self.new ≡ stage_of self.old) × (self.new.seat.me ≡ self.old.seat.me) }
        ensures all { share_of self.old ≡ all_shares → stage_of self.old ≡ stage.Idle → SawNoMore (trail_of self.old) → HasFinishedAll (W.parents (work_of pool.now)) self.new }
    {
        pool.table.shared.load::<Completed>(&mut self.seat, HEAD);
    }

    // Empties the slot of the trace that the seat has.
    fn empty_slot(&mut self, pool: &Pool<W>)
        requires sits { IsSeatOf W.parents pool.now self.old }
        requires may { MayStop (stage_of self.old) }
        ensures sits { IsSeatOf W.parents pool.now self.new }
        ensures same { (stage_of self.new ≡ stage_of self.old) × (view_of self.new ≡ view_of self.old) }
        ensures ready { IsStopping (stage_of self.new) self.new.seat.me.1 }
    {
        match self.stage {
            Stage::Trace(trace, _) => {
                drop(
                    pool.table
                        .shared
                        .exchange(&mut self.seat, trace as usize, None),
                );
            }
            Stage::Idle => {}
            Stage::Ticket(_) => {}
            Stage::Placed(_, _, _) => unreachable!(),
            Stage::Stopped => unreachable!(),
            Stage::Spent => unreachable!(),
        }
    }

    /// Gives a new seat 2^32 of the share. It neither waits nor takes memory.
    pub fn split(self, pool: &Pool<W>) -> (Seat<W>, Seat<W>)
        requires sits { IsSeatOf W.parents pool.now self }
        requires rest { AtRest (stage_of self) }
        requires share { draws_of self + 4294967296 < share_of self }
        ensures first { IsSeatOf W.parents pool.now result.0 }
        ensures second { IsSeatOf W.parents pool.now result.1 }
        ensures stages { (stage_of result.0 ≡ stage_of self) × (stage_of result.1 ≡ stage.Idle) }
        ensures views { (view_of result.0 ≡ cut 4294967296 (view_of self)) × (view_of result.1 ≡ part_of 4294967296 (view_of self)) }
    {
        let Seat { mut seat, stage } = self;
        let other = pool.table.shared.split_seat::<Cut>(&mut seat);
        (
            Seat { seat, stage },
            Seat {
                seat: other,
                stage: Stage::Idle,
            },
        )
    }

    /// Takes in another seat's share, trail and finished traces. It neither waits nor takes memory.
    pub fn join(self, other: Seat<W>, pool: &Pool<W>) -> Seat<W>
        requires first { IsSeatOf W.parents pool.now self }
        requires second { IsSeatOf W.parents pool.now other }
        requires rest { AtRest (stage_of self) × AtRest (stage_of other) }
        ensures sits { IsSeatOf W.parents pool.now result }
        ensures rest { AtRest (stage_of result) }
        ensures view { view_of result ≡ both_views (view_of self) (view_of other) }
    {
        let Seat { mut seat, stage } = self;
        let Seat {
            seat: taken,
            stage: other_stage,
        } = other;
        pool.table.shared.join_seat::<Both>(&mut seat, taken);
        let stage = match (stage, other_stage) {
            (Stage::Idle, Stage::Idle) => Stage::Idle,
            _ => Stage::Stopped,
        };
        Seat { seat, stage }
    }
}

fn result_of<H: Drop, D: Drop>(content: Option<Content<H, D>>) -> Option<D>
    ensures { result ≡ done_of content }
{
    match content {
        Some(Content::Done(done)) => Some(done),
        Some(Content::Hint(_)) => None,
        None => None,
    }
}

impl<W: Work> Pool<W> {
    ghost use Rattle.trace_pool.specs.Seats.{IsSeatOf, IsPoolOf, work_of, view_of, stage_of, share_of, finished_of};

    /// A pool in which the traces without a parent are shown, and its first seat, which is idle and has the whole
    /// share. A parent's number is below its child's.
    pub fn open(alloc: Global, work: &W) -> Result<(Pool<W>, Seat<W>), Memory>
        requires tree { IsTree (W.parents work.now) }
        requires small { length (W.parents work.now) ≤ 262144 }
        ensures pool { IfOk result (λ r. IsPoolOf W.parents r.0 work.now) }
        ensures seat { IfOk result (λ r. IsSeatOf W.parents r.0 r.1) }
        ensures view { IfOk result (λ r. (stage_of r.1 ≡ stage.Idle) × (view_of r.1 ≡ first all_shares (Some work.now))) }
    {
        let count = work.count() as usize;
        let parents = parents_of(alloc, work)?;
        let words = first_words(alloc, parents.as_slice())?;
        let results = Vec::with_capacity(alloc, count)?;
        let children = ChildIndex::new(alloc, parents)?;
        let (table, seat) = Table::vacant(alloc, words.as_slice(), count, work)?;
        let pool = Pool {
            table,
            results,
            children,
        };
        let seat = Seat {
            seat,
            stage: Stage::Idle,
        };
        Ok((pool, seat))
    }

    /// The final results of the traces that the last seat has finished, each at its trace's number, and `None` for each
    /// other. It neither waits nor takes memory.
    pub fn close(self, seat: Seat<W>) -> Vec<Option<W::Done>>
        requires sits { IsSeatOf W.parents self seat }
        requires rest { AtRest (stage_of seat) }
        requires whole { share_of seat ≡ all_shares }
        ensures { ClosedAs (W.is_final (work_of self)) (W.parents (work_of self)) (finished_of seat) result.items }
    {
        let Pool {
            table,
            mut results,
            children: _,
        } = self;
        let Seat { seat, stage: _ } = seat;
        let mut closed = table.close_with(seat);
        let mut trace = 0;
        while trace < closed.slot_count() {
            results.push_reserved(result_of(closed.take(trace)));
            trace += 1;
        }
        closed.free();
        results
    }
}
