//! What elements say, and what is wrong with them.

ghost use Rattle.std.specs.Prelude.{◌≡◌, IfErr};
ghost use Rattle.ffx_facts.specs.declared.error.FactsError.TheVariants as refusal;
ghost use Rattle.ffx_facts.specs.Scan.{element as seen, value};
ghost use Rattle.ffx_facts.specs.Values.{IsElementFault, address, address_of_label, bounds_of, count_in, loop_says, number_in, says};

use crate::element::Element;
use crate::error::FactsError;
use crate::kind::Kind;
use crate::number::read_number;
use crate::says::{Bounds, Says};
use wx_base::{Symbol, find_symbol};

// What an element says, or what is wrong with it alone.
//
// Linear in its attributes, and in the symbols and their names where its label counts.
#[tactic(auto, unfolding(crate::specs::Values::says))]
pub(crate) fn judge(symbols: &[Symbol], element: &Element) -> Result<Says, FactsError>
    ensures value { result ≡ says symbols.now (seen element.now) }
    ensures fault { IfErr result IsElementFault }
{
    match element.kind {
        Kind::FlowFacts | Kind::Function => Ok(Says {
            kind: element.kind,
            address: 0,
            bounds: None,
        }),
        Kind::Loop => judge_loop(symbols, element),
        Kind::MultiBranch | Kind::MultiCall | Kind::Target => {
            let address = read_address(symbols, element)?;
            Ok(Says {
                kind: element.kind,
                address,
                bounds: None,
            })
        }
    }
}

// What a loop says, or what is wrong with it alone.
fn judge_loop(symbols: &[Symbol], element: &Element) -> Result<Says, FactsError>
    ensures value { result ≡ loop_says symbols.now (seen element.now) }
    ensures fault { IfErr result IsElementFault }
{
    let maxcount = read_count(element, element.maxcount)?;
    let totalcount = read_count(element, element.totalcount)?;
    let address = read_address(symbols, element)?;
    Ok(Says {
        kind: Kind::Loop,
        address,
        bounds: bounds_of(maxcount, totalcount),
    })
}

// That a value is wrong, in an element at this place.
fn wrong_number(element: &Element) -> FactsError
    ensures { result ≡ refusal.Number element.now.at }
{
    FactsError::Number {
        at: element.at as u64,
    }
}

// The bounds of a loop by its two counts. A total alone bounds each stay too.
fn bounds_of(maxcount: Option<u32>, totalcount: Option<u32>) -> Option<Bounds>
    ensures { result ≡ bounds_of maxcount totalcount }
{
    let maxcount = maxcount.or(totalcount)?;
    Some(Bounds {
        maxcount,
        totalcount,
    })
}

// A count of a loop: none where it has none or says that it was not computed.
fn read_count(element: &Element, text: Option<&[u8]>) -> Result<Option<u32>, FactsError>
    ensures value { result ≡ count_in (seen element.now) (value text.entry) }
    ensures fault { IfErr result IsElementFault }
{
    match text {
        None => Ok(None),
        Some(text) if text == b"NOCOMP".as_slice() => Ok(None),
        Some(text) => match read_number(text) {
            Some(count) => Ok(Some(count)),
            None => Err(wrong_number(element)),
        },
    }
}

// The number of an attribute, where there is one.
fn read_optional(element: &Element, text: Option<&[u8]>) -> Result<Option<u32>, FactsError>
    ensures value { result ≡ number_in (seen element.now) (value text.entry) }
    ensures fault { IfErr result IsElementFault }
{
    match text {
        None => Ok(None),
        Some(text) => match read_number(text) {
            Some(number) => Ok(Some(number)),
            None => Err(wrong_number(element)),
        },
    }
}

// The address that an element speaks of.
#[tactic(auto, unfolding(crate::specs::Values::address))]
fn read_address(symbols: &[Symbol], element: &Element) -> Result<u32, FactsError>
    ensures value { result ≡ address symbols.now (seen element.now) }
    ensures fault { IfErr result IsElementFault }
{
    let address = read_optional(element, element.address)?;
    let offset = read_optional(element, element.offset)?;
    match address {
        Some(address) => Ok(address),
        None => read_label(symbols, element, offset.unwrap_or(0)),
    }
}

// The address of an element that has a label in place of an address.
fn read_label(symbols: &[Symbol], element: &Element, offset: u32) -> Result<u32, FactsError>
    ensures value { result ≡ address_of_label symbols.now (seen element.now) offset (value element.now.label) }
    ensures fault { IfErr result IsElementFault }
{
    let at = element.at as u64;
    let label = element.label.ok_or(FactsError::NoAddress { at })?;
    let value = find_symbol(symbols, label).ok_or(FactsError::NoSymbol { at })?;
    value.checked_add(offset).ok_or(FactsError::Number { at })
}
