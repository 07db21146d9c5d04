use flow_ctx::Scope;
use wx_text::List;

/// A line and a scope of which some fetch of the line is a first miss.
#[derive(Clone, Copy, Debug, PartialEq, Eq)]
pub struct Group {
    /// The number of the line, which is the address divided by the line's size in bytes.
    pub line: u32,
    /// The scope.
    pub scope: Scope,
}

/// Groups, by line, those of one line by scope: contracts see the list.
pub type Groups = List<Group>;
