ghost use Rattle.std.specs.Prelude.{◌≡◌};
ghost use Rattle.arm_code.specs.Columns.{half_loads, index_changes};
ghost use Rattle.arm_code.specs.Flows.{adds_before};

/// The second operand of a data-processing instruction.
#[derive(Clone, Copy, Debug, PartialEq, Eq)]
pub enum Operand {
    /// Eight bits, rotated right by twice `rot`, which is below 16.
    Imm { value: u8, rot: u8 },
    /// A register, shifted by `amount`, which is below 32; kinds are lsl, lsr, asr and ror, 0 to 3. An amount of 0
    /// stands for 32 at lsr and asr, and at ror for a rotation by one through the carry.
    Shift { rm: u8, kind: u8, amount: u8 },
    /// A register, shifted by the lowest byte of the register `rs`.
    ByReg { rm: u8, kind: u8, rs: u8 },
}

/// The offset of a transfer of a word or byte.
#[derive(Clone, Copy, Debug, PartialEq, Eq)]
pub enum Offset {
    /// A number of twelve bits.
    Imm { value: u16 },
    /// A register, shifted as in [`Operand::Shift`].
    Reg { rm: u8, kind: u8, amount: u8 },
}

/// The offset of a transfer of a half word or a signed byte.
#[derive(Clone, Copy, Debug, PartialEq, Eq)]
pub enum HalfOffset {
    Imm { value: u8 },
    Reg { rm: u8 },
}

/// What a transfer of a half word or a signed byte moves, and in which direction.
#[derive(Clone, Copy, Debug, PartialEq, Eq)]
pub enum HalfKind {
    /// Loads a half word, extended with zeros.
    Ldrh,
    /// Stores a half word.
    Strh,
    /// Loads a byte, extended by its sign.
    Ldrsb,
    /// Loads a half word, extended by its sign.
    Ldrsh,
}

impl HalfKind {
    /// Whether it loads.
    pub fn loads(self) -> bool
        ensures { result ≡ half_loads self }
    {
        match self {
            HalfKind::Strh => false,
            HalfKind::Ldrh | HalfKind::Ldrsb | HalfKind::Ldrsh => true,
        }
    }
}

/// How a transfer uses its offset.
#[derive(Clone, Copy, Debug, PartialEq, Eq)]
pub enum Index {
    /// Added for the address alone.
    Plain,
    /// Added for the address, which the base is set to.
    Pre,
    /// The address is the base, to which the offset is added afterwards.
    Post,
}

impl Index {
    /// Whether the offset is added before the transfer.
    pub fn adds_before(self) -> bool
        ensures { result ≡ adds_before self }
    {
        match self {
            Index::Plain | Index::Pre => true,
            Index::Post => false,
        }
    }

    /// Whether the base is changed.
    pub fn changes_base(self) -> bool
        ensures { result ≡ index_changes self }
    {
        match self {
            Index::Plain => false,
            Index::Pre | Index::Post => true,
        }
    }
}

/// What an instruction does, with its fields as they stand in the word. Registers are numbers below 16; `up` says that
/// an offset is added, and not subtracted.
#[derive(Clone, Copy, Debug, PartialEq, Eq)]
pub enum Op {
    /// Data processing: `op` is the opcode, `s` says that flags are set.
    Alu {
        op: u8,
        s: bool,
        rn: u8,
        rd: u8,
        operand: Operand,
    },
    /// A product of `rm` and `rs`, to which `rn` is added if `accumulate`.
    Mul {
        accumulate: bool,
        s: bool,
        rd: u8,
        rn: u8,
        rs: u8,
        rm: u8,
    },
    /// A product of 64 bits of `rm` and `rs`, added to `hi` and `lo` if `accumulate`.
    MulLong {
        signed: bool,
        accumulate: bool,
        s: bool,
        hi: u8,
        lo: u8,
        rs: u8,
        rm: u8,
    },
    /// A transfer of a word or byte.
    Single {
        load: bool,
        byte: bool,
        rd: u8,
        rn: u8,
        index: Index,
        up: bool,
        offset: Offset,
    },
    /// A transfer of a half word or a signed byte.
    Half {
        kind: HalfKind,
        rd: u8,
        rn: u8,
        index: Index,
        up: bool,
        offset: HalfOffset,
    },
    /// A transfer of the registers whose bits are set in `list`. `before` says that the base's own word is left out,
    /// `wback` that the base is set to where the block ends.
    Block {
        load: bool,
        before: bool,
        up: bool,
        wback: bool,
        rn: u8,
        list: u16,
    },
    /// A branch by `offset` words from the instruction after the next; a call if it links.
    Branch {
        link: bool,
        offset: i32,
    },
    /// A branch to the address in a register; a call if it links.
    Exchange {
        link: bool,
        rm: u8,
    },
    /// A call of the supervisor, which ends a run.
    Svc {
        number: u32,
    },
    /// A branch to the address in the link register, written as a move to pc.
    MovPcLr,
}

/// An instruction: its condition, a code below 15 of which 14 is "always", and what it does.
#[derive(Clone, Copy, Debug, PartialEq, Eq)]
pub struct Insn {
    pub cond: u8,
    pub op: Op,
}
