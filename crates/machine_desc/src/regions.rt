//! Regions that have an address in common.

ghost use Rattle.std.specs.Prelude.{◌≡◌, ◌<◌, IfErr, MatchOption, OnOk, length};
ghost use Rattle.std.specs.Bool.{Decides};
ghost use Rattle.machine_desc.specs.Causes.{IsRegionsCause};
ghost use Rattle.machine_desc.specs.Meeting.{IsFirstMeeting, IsLeastMeeting, Meet, NoneMeet, NoneMeetsLater};

use crate::error::MachineError;
use wx_base::Region;

/// Refuses regions of which two have an address in common, by the least such pair.
pub(crate) fn check_apart(regions: &[Region]) -> Result<(), MachineError>
    ensures apart { OnOk result (NoneMeet regions.now) }
    ensures refused { IfErr result (IsRegionsCause regions.now) }
{
    match least_meeting(regions) {
        None => Ok(()),
        Some((a, b)) => Err(MachineError::Regions {
            a: a as u64,
            b: b as u64,
        }),
    }
}

/// The least pair of regions that have an address in common, by the place of the first and then by that of the second.
///
/// Quadratic in their number, which is at most 64.
fn least_meeting(regions: &[Region]) -> Option<(usize, usize)>
    ensures { MatchOption result (NoneMeet regions.now) (λ p. IsLeastMeeting regions.now p.0 p.1) }
{
    for a in 0..regions.len() {
        if let Some(b) = first_meeting(regions, a) {
            return Some((a, b));
        }
    }
    None
}

/// The first region behind region `a` that meets it.
fn first_meeting(regions: &[Region], a: usize) -> Option<usize>
    requires { a < length regions.now }
    ensures { MatchOption result (NoneMeetsLater regions.now a) (λ b. IsFirstMeeting regions.now a b) }
{
    for b in a + 1..regions.len() {
        if meet(&regions[a], &regions[b]) {
            return Some(b);
        }
    }
    None
}

/// Whether two regions have an address in common.
fn meet(a: &Region, b: &Region) -> bool
    ensures { Decides result (Meet a.now b.now) }
{
    a.first <= b.last && b.first <= a.last
}
