//! A gate at which two workers meet, for tests that want to see two inside at once.
//!
//! It takes a number of turns. The first `enter`, or that of a chosen trace, is held until another worker is inside, or
//! until the turns are over; `met` tells which. No clause speaks of it: that a second worker comes is for the system's
//! threads to do. It is bounded by its turns, so it waits for nothing.

use outside::Gate;
use std::sync::atomic::{AtomicBool, AtomicU64, Ordering};
use std::thread;

/// Which call of `enter` is held, and until which call.
#[derive(Clone, Copy)]
enum Meeting {
    /// The first call, until a second.
    Any,
    /// That of the first trace, until that of the second.
    Of { first: u32, second: u32 },
}

/// A gate that holds one worker until another is inside, for at most so many turns.
#[derive(Drop)]
pub struct MeetGate {
    meeting: Meeting,
    turns: u64,
    entered: AtomicU64,
    met: AtomicBool,
}

impl MeetGate {
    /// Holds the first `enter` until a second is inside, for at most `turns` turns.
    pub fn new(turns: u64) -> MeetGate {
        MeetGate::of(Meeting::Any, turns)
    }

    /// Holds `enter(first)` until `enter(second)` is called, for at most `turns` turns.
    pub fn pair(first: u32, second: u32, turns: u64) -> MeetGate {
        MeetGate::of(Meeting::Of { first, second }, turns)
    }

    fn of(meeting: Meeting, turns: u64) -> MeetGate {
        MeetGate {
            meeting,
            turns,
            entered: AtomicU64::new(0),
            met: AtomicBool::new(false),
        }
    }

    /// Whether the awaited `enter` was called before the held one returned.
    pub fn met(&self) -> bool {
        self.met.load(Ordering::SeqCst)
    }

    // Waits until as many have entered, or the turns are over.
    fn hold(&self, awaited: u64) {
        for _ in 0..self.turns {
            if self.entered.load(Ordering::SeqCst) >= awaited {
                self.met.store(true, Ordering::SeqCst);
                return;
            }
            thread::yield_now();
        }
    }
}

impl Gate for MeetGate {
    fn enter(&self, trace: u32) {
        match self.meeting {
            Meeting::Any => {
                if self.entered.fetch_add(1, Ordering::SeqCst) == 0 {
                    self.hold(2);
                }
            }
            Meeting::Of { first, second } => {
                if trace == second {
                    self.entered.fetch_add(1, Ordering::SeqCst);
                } else if trace == first {
                    self.hold(1);
                }
            }
        }
    }
}
