use wx_base::Flags;
use wx_text::List;

/// The kinds of lines of a start text, in the order in which they come.
#[derive(Clone, Copy, Debug, PartialEq, Eq)]
pub enum Kind {
    /// What the text is, and which version of the format.
    Head,
    /// A register's value.
    Register,
    /// The flags.
    Flags,
    /// The byte of memory that neither image nor text has.
    Fill,
    /// A byte of memory.
    Byte,
    /// The lines of a set of the cache.
    Set,
    /// The end.
    End,
}

/// Numbers of cache lines: contracts see the list.
pub type LineNumbers = List<u32>;

/// What a line of a start text says.
#[derive(Debug, Drop)]
pub enum Item {
    /// The text is a start text.
    Head,
    /// A register has a value.
    Register {
        /// The register's number, below 15.
        number: u32,
        /// Its value.
        value: u32,
    },
    /// The flags are these.
    Flags {
        /// The four flags.
        flags: Flags,
    },
    /// Memory has this byte where neither the image nor the text has one.
    Fill {
        /// The byte.
        byte: u8,
    },
    /// Memory has a byte at an address.
    Byte {
        /// The address, in no segment of the image.
        address: u32,
        /// The byte.
        byte: u8,
    },
    /// A set of the cache holds these lines.
    Set {
        /// The set's number, from 0.
        set: u32,
        /// The numbers of its lines, the youngest first.
        lines: LineNumbers,
    },
    /// The text ends.
    End,
}
