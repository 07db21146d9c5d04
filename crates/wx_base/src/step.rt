/// Why the machine stops before an instruction.
#[derive(Clone, Copy, Debug, PartialEq, Eq)]
pub enum Why {
    /// The address is not that of a word of code.
    Fetch,
    /// The word is no instruction.
    Word,
    /// The address of a half word is odd, or that of a word, or the base of a block transfer, is no multiple of 4.
    Align,
    /// A byte of code would be written.
    Store,
}

/// What a transfer of one register moves. ARM Architecture Reference Manual, "Load and store instructions".
#[derive(Clone, Copy, Debug, PartialEq, Eq)]
pub enum Datum {
    /// Four bytes.
    Word,
    /// Two bytes; zeros come in front.
    Half,
    /// Two bytes; copies of their top bit come in front.
    SignedHalf,
    /// One byte; zeros come in front.
    Byte,
    /// One byte; copies of its top bit come in front.
    SignedByte,
}

/// The four flags.
#[derive(Clone, Copy, Debug, PartialEq, Eq)]
pub struct Flags {
    /// Negative.
    pub n: bool,
    /// Zero.
    pub z: bool,
    /// Carry.
    pub c: bool,
    /// Overflow.
    pub v: bool,
}

/// A shifted word, and the shifter's carry.
#[derive(Clone, Copy, Debug, PartialEq, Eq)]
pub struct Shifted {
    pub value: u32,
    /// The bit that left it last; where none did, the carry that was.
    pub carry: bool,
}

/// What data processing computes: the word, and the carry and overflow that it gives.
#[derive(Clone, Copy, Debug, PartialEq, Eq)]
pub struct Computed {
    pub value: u32,
    pub carry: bool,
    pub overflow: bool,
}

/// A transfer of one register.
#[derive(Clone, Copy, Debug, PartialEq, Eq)]
pub struct Transfer {
    /// Whether it loads.
    pub load: bool,
    /// What it moves.
    pub datum: Datum,
    /// The register that is loaded or stored, below 16.
    pub register: u8,
    /// The register with the base, below 16.
    pub base: u8,
    pub offset: u32,
    /// Whether the offset is added, and not subtracted.
    pub up: bool,
    /// Whether that is done before the transfer.
    pub before: bool,
    /// Whether the base is changed.
    pub changes: bool,
}

/// A transfer of a block of registers.
#[derive(Clone, Copy, Debug, PartialEq, Eq)]
pub struct BlockTransfer {
    /// Whether it loads.
    pub load: bool,
    /// Whether the base's own word is left out.
    pub before: bool,
    /// Whether addresses go up from the base.
    pub up: bool,
    /// Whether the base is changed, by as many bytes as the block has.
    pub changes: bool,
    /// The register with the base, below 16.
    pub base: u8,
    /// The registers, a bit for each.
    pub list: u16,
}
