//! A yard of blocks, and an activity's place in it.

use crate::shelf::Shelf;
use crate::view::View;
use std::sync::Arc;

/// An owner of a yard's blocks. `again` makes another owner of the same blocks.
#[derive(Drop)]
pub struct Yard<T> {
    pub(crate) shelf: Arc<Shelf<T>>,
}

/// An activity's place in a yard: where its next `take` begins, what its steps found, and the steps of the holds that it ended. It cannot be dropped: `end` ends it.
pub struct YardPass {
    pub(crate) next: u32,
    pub(crate) view: View,
}
