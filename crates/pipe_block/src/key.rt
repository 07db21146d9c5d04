/// For which block and which vector an answer is kept: the positions of the function in the program and of the block in
/// the function, and the vector's place in the pool.
#[derive(Clone, Copy, Debug, PartialEq, Eq, Hash)]
pub struct MemoKey {
    pub function: u32,
    pub block: u32,
    pub place: usize,
}
