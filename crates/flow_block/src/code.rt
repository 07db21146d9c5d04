//! Instructions as lists, ascending by address.

ghost use Rattle.wx_base.specs.Facts.{AreAscending};
ghost use Rattle.flow_block.specs.Code.{Found, IsPlace, IsThere};

use arm_code::Insn;

/// Instructions with their addresses, which ascend. The number of an instruction is its place in both lists.
#[derive(Clone, Copy)]
pub struct Code<'a> {
    pub addresses: &'a [u32],
    pub insns: &'a [Insn],
}

/// The place of an address, if it is in the list. Logarithmic in the addresses.
pub(crate) fn find(addresses: &[u32], address: u32) -> Option<usize>
    requires { AreAscending addresses.now }
    ensures { Found addresses.now address result }
{
    addresses.binary_search(&address).ok()
}

/// The place of an address that is in the list. Logarithmic in the addresses.
pub fn place(addresses: &[u32], address: u32) -> usize
    requires ascending { AreAscending addresses.now }
    requires listed { IsThere addresses.now address }
    ensures { IsPlace addresses.now address result }
{
    match find(addresses, address) {
        Some(place) => place,
        None => unreachable!(),
    }
}
