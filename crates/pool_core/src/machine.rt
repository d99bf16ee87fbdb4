//! The pool as a machine that makes one event of one worker at a time.

ghost use Rattle.std.specs.Prelude.{◌≡◌, ℕ, ◌+◌, ◌<◌, ◌≤◌, ◌↔◌, List, length, replicate, IfOk, IsTrue, vec_capacity, slice_get, Option};
ghost use Rattle.pool_core.specs.Tree.{children, IsTree};
ghost use Rattle.pool_core.specs.Rule.{Within};
ghost use Rattle.pool_core.specs.declared.workers.Entry.{Entry};
ghost use Rattle.pool_core.specs.Runs.{May, Can, next, seen_in, opening, fresh};
ghost use Rattle.pool_core.specs.Machine.{Machine, one_share, state_of, worker_of, IsNextOf, IsSound};
ghost use Rattle.pool_core.specs.declared.model.Event.TheVariants as event;
ghost use Rattle.pool_core.specs.declared.model.Stage.TheVariants as stage;

use crate::cells::first_cells;
use crate::children::ChildIndex;
use crate::model::{Event, Seen, Stage};
use crate::workers::{Entry, Hand};
use outside::Memory;
use std::alloc::Global;
use std::marker::Model;

const SHARE: u64 = 4_294_967_296;

/// A pool with its workers, seen as the traces' parents and the pool's state.
#[derive(Drop)]
pub struct Core {
    children: ChildIndex,
    head: u64,
    tail: u64,
    stopped: bool,
    cells: Vec<u64>,
    hands: Vec<Hand>,
    log: Vec<Entry>,
}

impl Model for Core {
    ghost Value = { Machine };

    ghost view = { λ c. record {
      parents = c.children;
      state = state_of c.head c.tail c.stopped c.cells.items c.hands.items c.log.items;
    } };

    ghost invariant = { λ c. let s = state_of c.head c.tail c.stopped c.cells.items c.hands.items c.log.items in
        IsSound c.children s c.hands.items (vec_capacity c.log) };
}

impl Core {
    /// A pool that opens, of the traces with these parents: those without a parent are shown, and as many workers as
    /// `workers` says are idle, each with a share of 2^32.
    pub fn open(alloc: Global, parents: &[Option<u32>], workers: u32) -> Result<Core, Memory>
        requires tree { IsTree parents.now }
        requires small { length parents.now ≤ 262144 }
        requires workers { (0 < workers) × (workers ≤ 64) }
        ensures parents { IfOk result (λ c. c.parents ≡ parents.now) }
        ensures state { IfOk result (λ c. c.state ≡ opening parents.now (replicate workers (fresh one_share))) }
    {
        let children = ChildIndex::new(alloc, parents.iter().copied().collect(alloc)?)?;
        let cells = first_cells(alloc, parents)?;
        let idle = Hand {
            stage: Stage::Idle,
            next: None,
            draws: 0,
        };
        let hands = vec![in alloc; idle; workers as usize]?;
        let log = Vec::with_capacity(alloc, parents.len())?;
        Ok(Core {
            children,
            head: 0,
            tail: cells.shown as u64,
            stopped: false,
            cells: cells.cells,
            hands,
            log,
        })
    }

    /// Whether the worker is there and its state allows it the event. It takes no memory, and time that doesn't grow
    /// with the pool.
    pub fn can(&self, worker: u32, event: Event) -> bool
        ensures { IsTrue result ↔ Can self.now.parents self.now.state worker event }
    {
        if worker as usize >= self.hands.len() {
            return false;
        }
        may(event, &self.hands[worker as usize])
    }

    /// Makes the event, and answers what the worker sees in it. It takes no memory, and time that doesn't grow with
    /// the pool.
    pub fn step(&mut self, worker: u32, event: Event) -> Seen
        requires { Can self.old.parents self.old.state worker event }
        ensures parents { self.new.parents ≡ self.old.parents }
        ensures state { self.new.state ≡ next self.old.parents self.old.state worker event }
        ensures seen { result ≡ seen_in self.old.parents self.old.state worker event }
    {
        match event {
            Event::Draw => self.draw(worker),
            Event::Look => self.look(worker),
            Event::Reserve => self.reserve(worker),
            Event::Show => self.show(worker),
            Event::Finish => self.finish(worker),
            Event::Stop => self.stop(worker),
            Event::See => self.see(worker),
        }
    }

    fn draw(&mut self, worker: u32) -> Seen
        requires { Can self.old.parents self.old.state worker event.Draw }
        ensures parents { self.new.parents ≡ self.old.parents }
        ensures state { self.new.state ≡ next self.old.parents self.old.state worker event.Draw }
        ensures seen { result ≡ seen_in self.old.parents self.old.state worker event.Draw }
    {
        let hand = self.hands[worker as usize];
        let found = self.head;
        let (stage, seen) = if found < self.cells.len() as u64 {
            (Stage::Ticket(found as u32), Seen::Ticket(found as u32))
        } else {
            (Stage::Idle, Seen::NoMore)
        };
        self.head += 1;
        self.hands[worker as usize] = Hand {
            stage,
            next: None,
            draws: hand.draws + 1,
        };
        seen
    }

    fn look(&mut self, worker: u32) -> Seen
        requires { Can self.old.parents self.old.state worker event.Look }
        ensures parents { self.new.parents ≡ self.old.parents }
        ensures state { self.new.state ≡ next self.old.parents self.old.state worker event.Look }
        ensures seen { result ≡ seen_in self.old.parents self.old.state worker event.Look }
    {
        let hand = self.hands[worker as usize];
        let Stage::Ticket(cell) = hand.stage else {
            unreachable!()
        };
        let found = self.cells[cell as usize];
        if found == 0 {
            return Seen::Empty;
        }
        let trace = (found - 1) as u32;
        self.hands[worker as usize] = Hand {
            stage: Stage::Trace(trace, 0),
            next: self.children.first_child(trace),
            draws: hand.draws,
        };
        Seen::Trace(trace)
    }

    fn reserve(&mut self, worker: u32) -> Seen
        requires { Can self.old.parents self.old.state worker event.Reserve }
        ensures parents { self.new.parents ≡ self.old.parents }
        ensures state { self.new.state ≡ next self.old.parents self.old.state worker event.Reserve }
        ensures seen { result ≡ seen_in self.old.parents self.old.state worker event.Reserve }
    {
        let hand = self.hands[worker as usize];
        let Stage::Trace(trace, shown) = hand.stage else {
            unreachable!()
        };
        let place = self.tail as u32;
        self.tail += 1;
        self.hands[worker as usize] = Hand {
            stage: Stage::Placed(trace, shown, place),
            next: hand.next,
            draws: hand.draws,
        };
        Seen::Ticket(place)
    }

    fn show(&mut self, worker: u32) -> Seen
        requires { Can self.old.parents self.old.state worker event.Show }
        ensures parents { self.new.parents ≡ self.old.parents }
        ensures state { self.new.state ≡ next self.old.parents self.old.state worker event.Show }
        ensures seen { result ≡ seen_in self.old.parents self.old.state worker event.Show }
    {
        let hand = self.hands[worker as usize];
        let Stage::Placed(trace, shown, place) = hand.stage else {
            unreachable!()
        };
        let Some(child) = hand.next else {
            unreachable!()
        };
        self.cells[place as usize] = child as u64 + 1;
        self.hands[worker as usize] = Hand {
            stage: Stage::Trace(trace, shown + 1),
            next: self.children.next_sibling(child),
            draws: hand.draws,
        };
        Seen::Nothing
    }

    fn finish(&mut self, worker: u32) -> Seen
        requires { Can self.old.parents self.old.state worker event.Finish }
        ensures parents { self.new.parents ≡ self.old.parents }
        ensures state { self.new.state ≡ next self.old.parents self.old.state worker event.Finish }
        ensures seen { result ≡ seen_in self.old.parents self.old.state worker event.Finish }
    {
        let hand = self.hands[worker as usize];
        let Stage::Trace(trace, _) = hand.stage else {
            unreachable!()
        };
        self.log.push_reserved(Entry { worker, trace });
        self.hands[worker as usize] = Hand {
            stage: Stage::Idle,
            next: None,
            draws: hand.draws,
        };
        Seen::Nothing
    }

    fn stop(&mut self, worker: u32) -> Seen
        requires { Can self.old.parents self.old.state worker event.Stop }
        ensures parents { self.new.parents ≡ self.old.parents }
        ensures state { self.new.state ≡ next self.old.parents self.old.state worker event.Stop }
        ensures seen { result ≡ seen_in self.old.parents self.old.state worker event.Stop }
    {
        let hand = self.hands[worker as usize];
        self.stopped = true;
        self.hands[worker as usize] = Hand {
            stage: Stage::Stopped,
            next: None,
            draws: hand.draws,
        };
        Seen::Nothing
    }

    fn see(&mut self, worker: u32) -> Seen
        requires { Can self.old.parents self.old.state worker event.See }
        ensures parents { self.new.parents ≡ self.old.parents }
        ensures state { self.new.state ≡ next self.old.parents self.old.state worker event.See }
        ensures seen { result ≡ seen_in self.old.parents self.old.state worker event.See }
    {
        let hand = self.hands[worker as usize];
        if !self.stopped {
            return Seen::Mark(false);
        }
        self.hands[worker as usize] = Hand {
            stage: Stage::Stopped,
            next: None,
            draws: hand.draws,
        };
        Seen::Mark(true)
    }
}

// Whether the worker's state allows it the event.
fn may(event: Event, hand: &Hand) -> bool
    ensures { (P : List (Option ℕ)) (log : List Entry) (i : ℕ) → IsNextOf P hand.now.stage hand.now.next → Within P hand.now.stage
        → (IsTrue result ↔ May P event hand.now.stage (worker_of i hand.now log)) }
{
    match (event, hand.stage) {
        (Event::Draw, Stage::Idle) => hand.draws < SHARE,
        (Event::Look | Event::See, Stage::Ticket(_)) => true,
        (Event::Reserve, Stage::Trace(_, _)) => hand.next.is_some(),
        (Event::Show, Stage::Placed(_, _, _)) => true,
        (Event::Finish, Stage::Trace(_, _)) => hand.next.is_none(),
        (Event::Stop, Stage::Idle | Stage::Ticket(_) | Stage::Trace(_, _)) => true,
        _ => false,
    }
}
