//! The desk, its senders and its taker.

ghost use Rattle.std.specs.Prelude.{◌≡◌, ◌+◌, ◌<◌, ◌≤◌, [], ◌∷◌, ◌++◌, IfOk, MatchOption, slice_index};
ghost use Rattle.batch_serve.specs.Tickets.{most_tickets};
ghost use Rattle.batch_serve.specs.Desks.{room_of, number_of, put_of, taken_of, IsSender, IsSenderOf, IsTakerOf, TookFirst, IsNextTicket, WasFull, WasEmpty, MatchPut};

use crate::sights::{
    AllEnded, NewSender, NextPut, NextTaken, SenderEnds, Sight, Ticket, TicketRule,
};
use crossbeam_queue::{Pass, RuledArrayQueue};
use outside::Memory;
use std::alloc::Global;
use std::sync::Wait;

/// A bounded queue of tickets, which threads share by reference, each with a sender or the taker.
#[derive(Drop)]
pub struct Desk {
    queue: RuledArrayQueue<Ticket, Sight, TicketRule>,
}

/// Puts the tickets of one submitter.
#[derive(Drop)]
pub struct Sender {
    pass: Pass<Ticket, Sight>,
    pub(crate) number: u8,
    pub(crate) count: u32,
}

/// Takes the tickets of both submitters.
#[derive(Drop)]
pub struct Taker {
    pass: Pass<Ticket, Sight>,
    counts: [u32; 2],
}

/// What a put did.
#[derive(Clone, Copy, PartialEq, Eq, Debug)]
pub enum Put {
    /// The ticket was put.
    Put,
    /// The queue was full, and the ticket wasn't put.
    Full,
}

impl Desk {
    /// A desk whose queue has room for so many tickets, with the senders 0 and 1, and the taker.
    pub fn open(alloc: Global, room: usize) -> Result<(Desk, Sender, Sender, Taker), Memory>
        requires { (0 < room) × (room ≤ 64) }
        ensures room { IfOk result (λ r. room_of r.0 ≡ room) }
        ensures first { IfOk result (λ r. IsSender r.0 r.1 0 0) }
        ensures second { IfOk result (λ r. IsSender r.0 r.2 1 0) }
        ensures taker { IfOk result (λ r. IsTakerOf r.0 r.3 × (taken_of r.3 ≡ [])) }
    {
        let (queue, mut pass) = RuledArrayQueue::ruled(alloc, room)?;
        let first = queue.another::<NewSender>(&mut pass);
        let second = queue.another::<NewSender>(&mut pass);
        let first = Sender {
            pass: first,
            number: 0,
            count: 0,
        };
        let second = Sender {
            pass: second,
            number: 1,
            count: 0,
        };
        let taker = Taker {
            pass,
            counts: [0, 0],
        };
        Ok((Desk { queue }, first, second, taker))
    }

    /// Ends the desk, and tells how many tickets of each sender were taken: its first ones, in order and each once, and no more
    /// than it put. It takes no memory.
    pub fn close(self, first: Sender, second: Sender, taker: Taker) -> [u32; 2]
        requires first { IsSenderOf self first × (number_of first ≡ 0) }
        requires second { IsSenderOf self second × (number_of second ≡ 1) }
        requires taker { IsTakerOf self taker }
        ensures first { TookFirst (taken_of taker) 0 (slice_index result 0) × (slice_index result 0 ≤ put_of first) }
        ensures second { TookFirst (taken_of taker) 1 (slice_index result 1) × (slice_index result 1 ≤ put_of second) }
    {
        let Taker { mut pass, counts } = taker;
        let Sender { pass: one, .. } = first;
        let Sender { pass: two, .. } = second;
        self.queue.absorb::<SenderEnds>(&mut pass, one);
        self.queue.absorb::<SenderEnds>(&mut pass, two);
        self.queue.learn_as::<AllEnded>(&mut pass);
        counts
    }
}

impl Sender {
    /// Puts the ticket of the sender's next index, in one atomic step. `Full` comes only where the queue was full at a moment of
    /// this call; the sender is then unchanged. It takes no memory, and may wait.
    pub fn put<R: Wait>(&mut self, rt: &R, desk: &Desk) -> Put
        requires desk { IsSenderOf desk.now self.old }
        requires few { put_of self.old < most_tickets }
        ensures put { MatchPut result
            (IsSender desk.now self.new (number_of self.old) (put_of self.old + 1))
            (IsSender desk.now self.new (number_of self.old) (put_of self.old) × WasFull desk.now (number_of self.old) (put_of self.old)) }
    {
        let ticket = Ticket {
            sender: self.number,
            index: self.count,
        };
        match desk.queue.push_as::<NextPut, R>(rt, &mut self.pass, ticket) {
            Ok(()) => {
                self.count += 1;
                Put::Put
            }
            Err(_) => Put::Full,
        }
    }
}

impl Taker {
    /// Takes the oldest ticket, in one atomic step. `None` comes only where the queue was empty at a moment of this call. It takes
    /// no memory, and may wait.
    pub fn take<R: Wait>(&mut self, rt: &R, desk: &Desk) -> Option<Ticket>
        requires desk { IsTakerOf desk.now self.old }
        ensures desk { IsTakerOf desk.now self.new }
        ensures taken { MatchOption result
            ((taken_of self.new ≡ taken_of self.old) × WasEmpty (taken_of self.old))
            (λ t. (taken_of self.new ≡ taken_of self.old ++ t ∷ []) × IsNextTicket (taken_of self.old) t) }
    {
        let ticket = desk.queue.pop_as::<NextTaken, R>(rt, &mut self.pass)?;
        self.counts[ticket.sender as usize] += 1;
        Some(ticket)
    }
}
