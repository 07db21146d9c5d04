//! Which nodes' moves are worth following once more.

ghost use Rattle.std.specs.Prelude.{◌≡◌, ◌<◌, true, length, replicate, slice_set, IfOk};

use std::alloc::Global;
use wx_base::NoMemory;

/// For each node whether its state has changed since its moves were followed last. Marks only save work: whether a
/// solution is reached is tested without them.
#[derive(Drop)]
pub(crate) struct Marks {
    changed: Vec<bool>,
    /// The node whose moves are passed just now, and whether they are to be followed.
    current: Option<u32>,
    wanted: bool,
}

impl Marks {
    /// Marks of so many nodes, all of which are to be looked at.
    pub fn new(alloc: Global, nodes: usize) -> Result<Marks, NoMemory>
        ensures { IfOk result (λ marks. length marks.changed.items ≡ nodes) }
    {
        Ok(Marks {
            changed: Vec::from_elem(alloc, true, nodes)?,
            current: None,
            wanted: true,
        })
    }

    /// Whether a move from a node is to be followed. With the first of its moves the node's mark is taken away.
    pub fn wants(&mut self, node: u32) -> bool
        requires { node < length self.old.changed.items }
        ensures { length self.new.changed.items ≡ length self.old.changed.items }
    {
        if self.current != Some(node) {
            self.current = Some(node);
            self.wanted = self.changed[node as usize];
            self.changed[node as usize] = false;
        }
        self.wanted
    }

    /// Marks a node whose state has changed.
    pub fn mark(&mut self, node: u32)
        requires { node < length self.old.changed.items }
        ensures { length self.new.changed.items ≡ length self.old.changed.items }
    {
        self.changed[node as usize] = true;
    }
}
