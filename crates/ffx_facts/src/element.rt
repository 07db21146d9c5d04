use crate::kind::Kind;

/// An element of a facts file, with those attributes that may count.
#[derive(Clone, Copy, Debug)]
pub(crate) struct Element<'a> {
    /// What the element is.
    pub kind: Kind,
    /// The place of its `<` in the file.
    pub at: usize,
    /// The value of `address`.
    pub address: Option<&'a [u8]>,
    /// The value of `label`.
    pub label: Option<&'a [u8]>,
    /// The value of `offset`.
    pub offset: Option<&'a [u8]>,
    /// The value of `maxcount`.
    pub maxcount: Option<&'a [u8]>,
    /// The value of `totalcount`.
    pub totalcount: Option<&'a [u8]>,
}
