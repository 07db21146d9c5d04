use crate::row::Row;
use indexmap::IndexSet;
use xdd_table::{Dd, Table};

/// What a walk through a block came to: different rows, and a plan that leads each combination to the position of its
/// row.
#[derive(Drop)]
pub struct Walked {
    pub plan: Table,
    pub root: Dd,
    pub rows: IndexSet<Row>,
}
