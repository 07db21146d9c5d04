//! What is judged.

ghost use Rattle.std.specs.Prelude.{◌≡◌, ◌<◌, length, slice_get, Some};

use cache_class::{Class, Classes};
use cert_judge::Offer;
use cert_prices::{ChargeTable, EdgePrices};
use cert_text::{CertVector, Certificate};
use flow_ctx::Unfolded;
use wx_base::Machine;
use xdd_table::Dd;

/// A certificate, and what it is a certificate for.
#[derive(Clone, Copy)]
pub(crate) struct Subject<'a> {
    pub unfolded: &'a Unfolded,
    pub machine: &'a Machine,
    /// The classes of the events of the unfolding on the machine.
    pub classes: &'a Classes,
    pub certificate: &'a Certificate,
    /// The certificate's charges, by line and scope.
    pub charges: &'a ChargeTable,
    /// What each edge costs and gives back by the certificate.
    pub prices: &'a EdgePrices,
}

/// A node, and what is charged in its block.
#[derive(Clone, Copy)]
pub(crate) struct Site<'a> {
    pub node: u32,
    /// The classes of the block's events, by their numbers.
    pub classes: &'a [Class],
    /// What the misses of the block are charged, in cycles, as a diagram over its events.
    pub charged: Dd,
}

/// The edges of a node, by their numbers.
#[derive(Clone, Copy)]
pub(crate) struct Stretch {
    /// The number of the first.
    pub first: usize,
    /// The number behind the last.
    pub end: usize,
}

/// The classes of a node's events.
pub(crate) fn classes_at(classes: &Classes, node: u32) -> &[Class]
    requires { node < length classes.now.slots }
    ensures { slice_get classes.now.slots node ≡ Some result.now }
{
    classes.slots.as_slice()[node as usize].as_slice()
}

/// The vectors that a certificate has for a node.
pub(crate) fn family_of(c: &Certificate, node: u32) -> &[CertVector]
    requires { node < length c.now.families }
    ensures { slice_get c.now.families node ≡ Some result.now }
{
    c.families.as_slice()[node as usize].as_slice()
}

/// What a vector with a potential has to pay with in a node.
pub(crate) fn offer_at<'a>(site: &Site<'a>, potential: u64) -> Offer<'a>
    ensures classes { result.classes.now ≡ site.now.classes.now }
    ensures charged { result.charged ≡ site.now.charged }
    ensures potential { result.potential ≡ potential }
{
    Offer {
        classes: site.classes,
        charged: site.charged,
        potential,
    }
}
