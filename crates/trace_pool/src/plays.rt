//! The names of the table's rule and of its steps.
ghost use Rattle.std.specs.Prelude.{Some};
ghost use Rattle.trace_pool.specs.Slots.{Holds, all_shares};
ghost use Rattle.trace_pool.specs.Plays.{over, over_fact, first, drew, looked, reserved, showed, ended, cut, part_of, both_views, no_view, halted, saw, completed};

use crate::parts::{Content, View};
use atomic_table::{Join, Play, Split, TableRule};
use pool_core::Work;
use std::marker::PhantomData;

pub struct Order<W> {
    of: PhantomData<W>,
}

impl<W: Work> TableRule<Option<Content<W::Hint, W::Done>>, View<Option<W>>, W> for Order<W> {
    ghost holds = { λ work. Holds (W.parents work) (W.is_hint work) (W.is_final work) (Some work) };

    ghost first = { λ work. first all_shares (Some work) };
}

pub(crate) struct Drew<W> {
    of: PhantomData<W>,
}

impl<W: Work> Play<Option<Content<W::Hint, W::Done>>, View<Option<W>>> for Drew<W> {
    ghost then = { drew (over W.parents) };
}

pub(crate) struct Looked<W> {
    of: PhantomData<W>,
}

impl<W: Work> Play<Option<Content<W::Hint, W::Done>>, View<Option<W>>> for Looked<W> {
    ghost then = { looked (over W.parents) (over_fact W.is_hint) };
}

pub(crate) struct Reserved<W> {
    of: PhantomData<W>,
}

impl<W: Work> Play<Option<Content<W::Hint, W::Done>>, View<Option<W>>> for Reserved<W> {
    ghost then = { reserved (over W.parents) };
}

pub(crate) struct Showed<W> {
    of: PhantomData<W>,
}

impl<W: Work> Play<Option<Content<W::Hint, W::Done>>, View<Option<W>>> for Showed<W> {
    ghost then = { showed (over W.parents) };
}

pub(crate) struct Ended<W> {
    of: PhantomData<W>,
}

impl<W: Work> Play<Option<Content<W::Hint, W::Done>>, View<Option<W>>> for Ended<W> {
    ghost then = { ended (over W.parents) };
}

pub(crate) struct Cut;

impl<W> Split<View<Option<W>>> for Cut {
    ghost left = { cut 4294967296 };

    ghost right = { part_of 4294967296 };
}

pub(crate) struct Both;

impl<W> Join<View<Option<W>>> for Both {
    ghost both = { both_views };

    ghost spent = { no_view };
}

pub(crate) struct Halted;

impl<W, H, D> Play<Option<Content<H, D>>, View<Option<W>>> for Halted {
    ghost then = { halted };
}

pub(crate) struct Saw;

impl<W, H, D> Play<Option<Content<H, D>>, View<Option<W>>> for Saw {
    ghost then = { saw };
}

pub(crate) struct Completed;

impl<W, H, D> Play<Option<Content<H, D>>, View<Option<W>>> for Completed {
    ghost then = { completed all_shares };
}
