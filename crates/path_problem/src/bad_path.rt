use thiserror::Error;

/// The first inequality that potentials break.
#[derive(Debug, PartialEq, Eq, Drop, Error)]
pub enum BadPath {
    /// The potential of a vertex is below its finish.
    #[error("the potential of vertex {vertex} is below its finish")]
    BadVertex {
        /// The number of the first such vertex.
        vertex: u64,
    },
    /// The potential of an arc's source is below the arc's full weight and the potential of its target.
    #[error("the potential of the source of arc {arc} is below the arc's weight and the potential of its target")]
    BadArc {
        /// The number of the first such arc.
        arc: u64,
    },
}
