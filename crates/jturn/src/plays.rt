//! What each step on the table tells.
ghost use Rattle.jturn.specs.Steps.{drew, looked, compared, stayed, served, cut_left, cut_right, glued, spent};

use crate::board::{Slot, View};
use crate::logged::Logged;
use atomic_table::{Join, Play, Split};
use std::marker::PhantomData;
use std::snapshot::Snapshot;

pub(crate) struct Draw;

impl<S, E> Play<Slot<S, Snapshot<E>>, View<E>> for Draw {
    ghost then = { drew };
}

pub(crate) struct Look<S> {
    of: PhantomData<S>,
}

impl<S: Logged> Play<Slot<S, Snapshot<S::Entry>>, View<S::Entry>> for Look<S> {
    ghost then = { looked S.stands_for S.mark S.constant };
}

pub(crate) struct Serve<S> {
    of: PhantomData<S>,
}

impl<S: Logged> Play<Slot<S, Snapshot<S::Entry>>, View<S::Entry>> for Serve<S> {
    ghost then = { served S.mark };
}

pub(crate) struct Compare;

impl<S, E> Play<Slot<S, Snapshot<E>>, View<E>> for Compare {
    ghost then = { compared };
}

pub(crate) struct Count;

impl<S, E> Play<Slot<S, Snapshot<E>>, View<E>> for Count {
    ghost then = { stayed };
}

pub(crate) struct Cut;

impl<E> Split<View<E>> for Cut {
    ghost left = { cut_left };

    ghost right = { cut_right };
}

pub(crate) struct Glue;

impl<E> Join<View<E>> for Glue {
    ghost both = { glued };

    ghost spent = { spent };
}
