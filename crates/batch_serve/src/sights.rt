//! Tickets, and what the passes of their queue know.

use crossbeam_queue::protocol::{Join, Lesson, Outcome, Protocol, Split};
use std::collections::LinkedList;

/// A job's number: its submitter, 0 or 1, and its place among that submitter's jobs, from 0.
#[derive(Clone, Copy, Debug, PartialEq, Eq)]
pub struct Ticket {
    pub sender: u8,
    pub index: u32,
}

/// What a pass knows. No value of it is made.
pub enum Sight {
    /// It puts the tickets of this sender, and has put so many.
    Sends {
        sender: u8,
        put: u32,
    },
    /// It takes. It knows how many senders were made, what was taken, and of the senders that it took in how many tickets each put.
    Takes {
        made: u8,
        taken: LinkedList<Ticket>,
        ended: LinkedList<u32>,
    },
    /// It was taken in.
    Spent,
}

/// The rule of the queue.
pub struct TicketRule;

impl Protocol<Ticket, Sight> for TicketRule {
    ghost use Rattle.batch_serve.specs.Rule.{KeepsOrder, first_sight};

    ghost holds = { λ items sights. KeepsOrder items sights };

    ghost first = { first_sight };
}

/// The taker makes a sender.
pub(crate) struct NewSender;

impl Split<Sight> for NewSender {
    ghost use Rattle.batch_serve.specs.Rule.{with_sender, newcomer};

    ghost left = { with_sender };

    ghost right = { newcomer };
}

/// The taker takes a sender in.
pub(crate) struct SenderEnds;

impl Join<Sight> for SenderEnds {
    ghost use Rattle.batch_serve.specs.Rule.{with_ended};
    ghost use Rattle.batch_serve.specs.declared.sights.Sight.TheVariants.{Spent};

    ghost both = { with_ended };

    ghost spent = { Spent };
}

/// A sender puts its next ticket.
pub(crate) struct NextPut;

impl Outcome<Ticket, Sight> for NextPut {
    ghost use Rattle.std.specs.Prelude.{◌≡◌};
    ghost use Rattle.batch_serve.specs.Rule.{with_put};

    ghost then = { λ sight ticket new. new ≡ with_put sight };
}

impl Lesson<Ticket, Sight> for NextPut {
    ghost use Rattle.batch_serve.specs.Rule.{Lasts};

    ghost fact = { Lasts };
}

/// The taker takes a ticket.
pub(crate) struct NextTaken;

impl Outcome<Ticket, Sight> for NextTaken {
    ghost use Rattle.std.specs.Prelude.{◌≡◌};
    ghost use Rattle.batch_serve.specs.Rule.{with_taken, ComesNext};

    ghost then = { λ sight ticket new. (new ≡ with_taken sight ticket) × ComesNext sight ticket };
}

impl Lesson<Ticket, Sight> for NextTaken {
    ghost use Rattle.batch_serve.specs.Rule.{Rests};

    ghost fact = { Rests };
}

/// The taker looks at the queue when all senders have ended.
pub(crate) struct AllEnded;

impl Lesson<Ticket, Sight> for AllEnded {
    ghost use Rattle.batch_serve.specs.Rule.{Settled};

    ghost fact = { Settled };
}
