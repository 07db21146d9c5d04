//! The refusals that need no functions and loops: words that are no instructions, and ways that lead out of the code.

ghost use Rattle.std.specs.Prelude.{◌≡◌, ◌≤◌, ◌∷◌, [], ◌<◌, AllPairs, IfOk, IfErr, find};
ghost use Rattle.std.specs.Option.{is_none, option_copied};
ghost use Rattle.wx_base.specs.Facts.{FactsAscend};
ghost use Rattle.flow_graph.specs.Reached.{AreSites, IsClosed, IsLeastOutside, IsLeastWith, LeadsOut};
ghost use Rattle.flow_graph.specs.Reached.{gone_to, is_untold, leads_of, next_of};
ghost use Rattle.flow_graph.specs.Refusals.{IsClean, IsFirst, rank};

use crate::error::FlowError;
use crate::inputs::Inputs;
use crate::site::Site;
use flow_block::listed_targets;
use wx_base::{Facts, Image};

/// The lesser of what is least so far and an address, if no code stands at the address.
fn least_with(image: &Image, address: u32, least: Option<u32>) -> Option<u32>
    ensures { IsLeastWith image.now (address ∷ []) least result }
{
    if image.is_code_word(address) {
        return least;
    }
    match least {
        Some(least) if least <= address => Some(least),
        _ => Some(address),
    }
}

/// The least of what is least so far and those addresses where no code stands.
fn least_of(image: &Image, addresses: &[u32], least: Option<u32>) -> Option<u32>
    ensures { IsLeastWith image.now addresses.now least result }
{
    let mut least = least;
    for address in addresses {
        least = least_with(image, *address, least);
    }
    least
}

/// The lesser of what is least so far and the address behind an instruction, if it goes on there and no code stands
/// there.
fn least_with_next(image: &Image, site: &Site, least: Option<u32>) -> Option<u32>
    ensures { IsLeastWith image.now (next_of site.now) least result }
{
    if site.flow.next {
        least_with(image, site.address.wrapping_add(4), least)
    } else {
        least
    }
}

/// The least address to which the run may come by going on, the start among them, and where no code stands.
fn least_gone_to(image: &Image, start: u32, sites: &[Site]) -> Option<u32>
    ensures { IsLeastOutside image.now (start ∷ gone_to sites.now) result }
{
    let mut least = least_with(image, start, None);
    for site in sites {
        least = least_with_next(image, site, least);
    }
    least
}

/// The first site whose word is no instruction.
fn first_foreign(sites: &[Site]) -> Option<&Site>
    ensures { option_copied result ≡ find (λ s. is_none s.insn) sites.now }
{
    sites.iter().find(|site| site.insn.is_none())
}

/// Whether the facts list no target for an indirect jump or a call by register.
fn is_untold(facts: &Facts, site: &Site) -> bool
    requires { FactsAscend facts.now }
    ensures { result ≡ is_untold facts.now site.now }
{
    site.flow.indirect && listed_targets(&facts.branches, site.address).is_empty()
        || site.flow.call_any && listed_targets(&facts.calls, site.address).is_empty()
}

/// The first site for which the facts list no target though it needs one.
fn first_untold<'a>(facts: &Facts, sites: &'a [Site]) -> Option<&'a Site>
    requires { FactsAscend facts.now }
    ensures { option_copied result ≡ find (λ s. is_untold facts.now s) sites.now }
{
    sites.iter().find(|site| is_untold(facts, site))
}

/// The least address where no code stands among those to which a site leads.
fn least_target(image: &Image, site: &Site) -> Option<u32>
    ensures { IsLeastOutside image.now (leads_of site.now) result }
{
    least_of(
        image,
        site.callees.as_slice(),
        least_of(image, site.ways.as_slice(), None),
    )
}

/// The address of the first site that leads to where no code stands, and its least such target.
fn first_leading_out(image: &Image, sites: &[Site]) -> Option<(u32, u32)>
    requires { AllPairs (λ s t. s.address < t.address) sites.now }
    ensures { LeadsOut image.now sites.now result }
{
    for site in sites {
        if let Some(target) = least_target(image, site) {
            return Some((site.address, target));
        }
    }
    None
}

/// Refuses the first that is due of the refusals that need no functions and loops, in the order of [`FlowError`]: a
/// word that is no instruction, a run that leaves the code, a jump or call without targets, and a target outside the
/// code. Takes no memory, and time linear in what the sites lead to, save for the look-ups in the facts.
pub(crate) fn refuse_early(inputs: &Inputs, sites: &[Site]) -> Result<(), FlowError>
    requires facts { FactsAscend inputs.now.facts.now }
    requires sites { AreSites inputs.now.image.now inputs.now.facts.now inputs.now.start sites.now }
    ensures first { IfErr result (λ e. IsFirst inputs.now.image.now inputs.now.facts.now inputs.now.start
        inputs.now.machine.now e) }
    ensures early { IfErr result (λ e. rank e ≤ 4) }
    ensures closed { IfOk result (λ _. IsClosed inputs.now.image.now inputs.now.facts.now inputs.now.start sites.now) }
    ensures clean { IfOk result (λ _. IsClean inputs.now.image.now inputs.now.facts.now inputs.now.start
        inputs.now.machine.now 4) }
{
    if let Some(site) = first_foreign(sites) {
        return Err(FlowError::Unsupported {
            addr: site.address,
            word: site.word,
        });
    }
    if let Some(addr) = least_gone_to(inputs.image, inputs.start, sites) {
        return Err(FlowError::LeavesCode { addr });
    }
    if let Some(site) = first_untold(inputs.facts, sites) {
        return Err(FlowError::IndirectNoTargets { addr: site.address });
    }
    if let Some((addr, target)) = first_leading_out(inputs.image, sites) {
        return Err(FlowError::BadTarget { addr, target });
    }
    Ok(())
}
