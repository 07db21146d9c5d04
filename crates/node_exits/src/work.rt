use pipe_block::EndMemo;
use pipe_time::VectorPool;

/// What was worked out for blocks and vectors, and the vectors.
///
/// It is to be used with one table, one unfolding and one machine.
#[derive(Drop)]
pub struct Work {
    pub memo: EndMemo,
    pub pool: VectorPool,
}
