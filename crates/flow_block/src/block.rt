use arm_code::Insn;
use wx_base::Addresses;
use wx_text::List;

/// What an event of a block is about.
#[derive(Clone, Copy, Debug, PartialEq, Eq)]
pub enum SlotKind {
    /// The block's first fetch of a line of the instruction cache: a hit or a miss.
    Fetch {
        /// The number of the line, which is the address divided by the line's size in bytes.
        line: u32,
    },
    /// A multiplication: fast or slow.
    Multiply,
    /// An access to data: fast or slow.
    Data,
}

/// An event of a block, whose outcome decides how long the block takes.
#[derive(Clone, Copy, Debug, PartialEq, Eq)]
pub struct Slot {
    /// The number of the instruction in the block, from 0.
    pub at: u32,
    pub kind: SlotKind,
}

/// Instructions: contracts see the list.
pub type Insns = List<Insn>;

/// The events of a block, in the order of its instructions: contracts see the list.
pub type Slots = List<Slot>;

/// Instructions of a function that stand one behind the other and are executed so: it is entered at its first alone,
/// and only its last may jump, call, return or end the run.
#[derive(Debug, Drop)]
pub struct Block {
    /// The address of the first instruction.
    pub start: u32,
    /// The instructions, from 1 to 32.
    pub insns: Insns,
    /// The events, at most 12.
    pub slots: Slots,
    /// The address behind the block, if the run may go on there in this function without a call between.
    pub next: Option<u32>,
    /// Where the last instruction may jump to, ascending.
    pub jumps: Addresses,
    /// The functions that it may call, by their entries, ascending.
    pub calls: Addresses,
    /// Whether it is a return.
    pub ret: bool,
}
