use wx_text::List;

/// Vertices: contracts see the list.
pub type Vertices = List<usize>;

/// A loop of a graph.
#[derive(Debug, Drop)]
pub struct Loop {
    /// The vertex to which the loop's back edges lead.
    pub head: usize,
    /// The head, and the vertices from which a path without it leads to the source of one of its back edges; ascending.
    pub members: Vertices,
}

/// Loops, in the order of their heads: contracts see the list.
pub type Loops = List<Loop>;
