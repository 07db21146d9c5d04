/// The two versions of a certificate's text.
#[derive(Clone, Copy, Debug, PartialEq, Eq)]
pub enum Version {
    /// Each vector stands at its node.
    One,
    /// The different vectors stand once, and nodes name them by their places.
    Two,
}

/// What a line of a certificate's text tells.
#[derive(Clone, Copy, Debug, PartialEq, Eq)]
pub enum Kind {
    /// `wx-cert VERSION`: what the text is.
    Head,
    /// `node N V`, version 1: a node's number, and how many vectors follow.
    Node,
    /// `vec P` and pairs `SLOT:VALUE`, version 1: a potential and a vector of the node.
    Vector,
    /// `vectors N`, version 2: how many different vectors follow.
    Count,
    /// `v` and pairs `SLOT:VALUE`, version 2: a vector.
    Listed,
    /// `node N` and pairs `POTENTIAL:PLACE`, version 2: a node's number, and its vectors by their places.
    Places,
    /// `charge HEX8 SCOPE A`: the charge of a cache line in a scope.
    Charge,
    /// `multiplier L A`: the multiplier of a loop.
    Multiplier,
    /// `total HEX8 A`, version 2: the price of a total.
    Total,
    /// `bound B`.
    Bound,
    /// `end`.
    End,
}

/// What a word of a line is.
#[derive(Clone, Copy, Debug, PartialEq, Eq)]
pub enum Role {
    /// The line's name, its first word.
    Name,
    /// The version: `1` or `2`.
    Version,
    /// A number behind which more may stand.
    First,
    /// The number that a line ends with.
    Last,
    /// The number before the colon of a pair.
    Left,
    /// The number behind the colon of a pair.
    Right,
    /// An address or a cache line: eight lower-case hexadecimal digits.
    Address,
    /// A scope: `run`, or the number of a loop.
    Scope,
}
