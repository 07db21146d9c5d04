//! An activation of a function.

ghost use Rattle.std.specs.Prelude.{replicate, ◌≡◌, ◌<◌, ◌≤◌, not, nat_lt, find, map, length, slice_index, slice_index_or, slice_set, AllPairs, All, List, ℕ, IfNone, IfOk, OnOk, false, ◌==◌};
ghost use Rattle.std.specs.Option.{option_map_or};
ghost use Rattle.std.specs.Bool.{OnTrue, OnFalse};
ghost use Rattle.wx_base.specs.Facts.{AreAscending};
ghost use Rattle.wx_base.specs.Monitor as monitor;
ghost use Rattle.wx_base.specs.Monitor.{is_one_of, at_head, loops_of, opened};
ghost use Rattle.wx_base.specs.State.{replaced};
ghost use Rattle.flow_graph.specs.Program.{judged_function, bounded_loop};
ghost use Rattle.flow_graph.specs.declared.program.LoopInfo.{LoopInfo};
ghost use Rattle.run_machine.specs.Judging.{AreFew, Ordered, breach_at, counted, frame_with, frame_of, IsFrame, IsGap, summed, totals_of, verdict, watched};

use crate::search::{is_one_of, place_of_entry, place_of_head};
use crate::totals::Totals;
use flow_graph::{Function, LoopInfo};
use std::alloc::Global;
use wx_base::{FactKind, NoMemory};

/// An activation of a function, with a counter for each of the function's loops.
#[derive(Drop)]
pub(crate) struct Frame {
    /// The function's entry.
    pub(crate) entry: u32,
    /// Where the function stands in the program; behind all where it does not, then it counts as one without loops.
    pub(crate) place: usize,
    /// The address last executed in it.
    pub(crate) last: Option<u32>,
    /// How often the back edges of each loop were taken since the loop was entered.
    pub(crate) counts: Vec<u32>,
    /// No head of the function's loops is an address from `low` on and below `high`, so that moves there touch no
    /// counter.
    pub(crate) low: u64,
    pub(crate) high: u64,
}

/// The addresses around those of loop `i` and of the one before it, in which no head lies: from the one head to the
/// other.
#[derive(Clone, Copy)]
struct Gap {
    low: u64,
    high: u64,
}

/// Behind each address.
const BEHIND_ALL: u64 = 0x1_0000_0000;

/// An address with all heads before place `i` below it.
fn above_heads(loops: &[LoopInfo], i: usize) -> u64
    requires ascending { AllPairs (λ l m. l.head < m.head) loops.now }
    requires place { i ≤ length loops.now }
    ensures { (j : ℕ) (d : LoopInfo) → j < i → (slice_index_or loops.now j d).head < result }
{
    if i == 0 {
        return 0;
    }
    u64::from(loops[i - 1].head) + 1
}

/// An address with no head from place `i` on below it.
fn below_heads(loops: &[LoopInfo], i: usize) -> u64
    requires ascending { AllPairs (λ l m. l.head < m.head) loops.now }
    requires place { i ≤ length loops.now }
    ensures { (j : ℕ) (d : LoopInfo) → i ≤ j → j < length loops.now → result ≤ (slice_index_or loops.now j d).head }
{
    if i == loops.len() {
        return BEHIND_ALL;
    }
    u64::from(loops[i].head)
}

/// The addresses between the head before place `i` and that of place `i`.
fn gap_before(loops: &[LoopInfo], i: usize) -> Gap
    requires ascending { AllPairs (λ l m. l.head < m.head) loops.now }
    requires place { i ≤ length loops.now }
    ensures { IsGap loops.now result.low result.high }
{
    Gap {
        low: above_heads(loops, i),
        high: below_heads(loops, i),
    }
}

/// Whether a move from an address, if there is one, comes from a member.
fn is_inside(members: &[u32], last: Option<u32>) -> bool
    requires { AreAscending members.now }
    ensures { result ≡ option_map_or (is_one_of members.now) last false }
{
    match last {
        Some(address) => is_one_of(members, address),
        None => false,
    }
}

/// Counts a move into the head of loop `i` in the stay; says whether that is not too often. A move from inside is one
/// more, and any other enters the loop.
fn count(counts: &mut [u32], i: usize, back: bool, maxcount: u32) -> bool
    requires { i < length counts.old }
    ensures kept { result ≡ not (nat_lt maxcount (counted back (slice_index counts.old i))) }
    ensures counted { OnTrue result (counts.new ≡ slice_set counts.old i (counted back (slice_index counts.old i))) }
    ensures stays { OnFalse result (counts.new ≡ counts.old) }
{
    if !back {
        counts[i] = 0;
        return true;
    }
    if counts[i] >= maxcount {
        return false;
    }
    counts[i] += 1;
    true
}

/// Counts a move into the head of loop `i`, in the stay and in the whole run; the answer is the rule that it breaks,
/// if it breaks one.
///
/// `NoMemory` where there is no room for the head's first count of the whole run.
fn count_all(
    counts: &mut [u32],
    totals: &mut Totals,
    i: usize,
    entered: &LoopInfo,
    inside: bool,
) -> Result<Option<FactKind>, NoMemory>
    requires place { i < length counts.old }
    requires few { AreFew (totals_of totals.old) }
    ensures breach { IfOk result
        (λ breach. breach ≡ breach_at entered.now inside (slice_index counts.old i)
        (totals_of totals.old entered.now.head)) }
    ensures counted { IfOk result
        (λ breach. IfNone breach (counts.new ≡ slice_set counts.old i (counted inside (slice_index counts.old i)))) }
    ensures summed { IfOk result
        (λ breach. IfNone breach (totals_of totals.new
        ≡ replaced (totals_of totals.old) entered.now.head (summed inside (totals_of totals.old entered.now.head)))) }
{
    if !count(counts, i, inside, entered.maxcount) {
        return Ok(Some(FactKind::Loop));
    }
    if !inside {
        return Ok(None);
    }
    if totals.count(entered.head, entered.totalcount)? {
        Ok(None)
    } else {
        Ok(Some(FactKind::Total))
    }
}

/// What a move between heads comes to: the rule that it breaks, if it breaks one, and the addresses around it without
/// heads.
#[derive(Clone, Copy)]
struct Arrival {
    breach: Option<FactKind>,
    gap: Gap,
}

/// Counts a move to an address by a function whose last address is this, if it leads into a head.
fn arrive(
    loops: &[LoopInfo],
    counts: &mut [u32],
    totals: &mut Totals,
    last: Option<u32>,
    to: u32,
) -> Result<Arrival, NoMemory>
    requires heads { AllPairs (λ l m. l.head < m.head) loops.now }
    requires members { All (λ l. AreAscending l.members) loops.now }
    requires counts { length counts.old ≡ length loops.now }
    requires few { AreFew (totals_of totals.old) }
    ensures moved { IfOk result (λ arrival. (entry : ℕ) (callers : List monitor.Frame)
        → at_head (find (λ l. l.head == to) (map bounded_loop loops.now))
        (frame_with loops.now entry last counts.old) callers (totals_of totals.old)
        ≡ verdict arrival.breach (watched (frame_with loops.now entry last counts.new) callers totals.new)) }
    ensures gap { IfOk result (λ arrival. IsGap loops.now arrival.gap.low arrival.gap.high) }
{
    match place_of_head(loops, to) {
        Ok(i) => {
            let entered = &loops[i];
            let inside = is_inside(entered.members.as_slice(), last);
            let breach = count_all(counts, totals, i, entered, inside)?;
            Ok(Arrival {
                breach,
                gap: gap_before(loops, i + 1),
            })
        }
        Err(i) => Ok(Arrival {
            breach: None,
            gap: gap_before(loops, i),
        }),
    }
}

/// Counters that are 0.
fn zeros(alloc: Global, count: usize) -> Result<Vec<u32>, NoMemory>
    ensures { IfOk result (λ counts. counts.items ≡ replicate count 0) }
{
    Ok(vec![in alloc; 0; count]?)
}

impl Frame {
    /// The activation of the function of an entry, which has executed nothing.
    ///
    /// `NoMemory` where there is no room for its counters.
    pub(crate) fn open(alloc: Global, functions: &[Function], entry: u32) -> Result<Frame, NoMemory>
        requires { Ordered functions.now }
        ensures opened { IfOk result (λ frame. frame_of functions.now frame ≡ opened entry) }
        ensures frame { IfOk result (λ frame. IsFrame functions.now frame) }
    {
        match place_of_entry(functions, entry) {
            Ok(place) => {
                let count = functions[place].loops.as_slice().len();
                let counts = zeros(alloc, count)?;
                Ok(Frame {
                    entry,
                    place,
                    last: None,
                    counts,
                    low: 0,
                    high: 0,
                })
            }
            Err(_) => Ok(Frame {
                entry,
                place: functions.len(),
                last: None,
                counts: Vec::new(alloc),
                low: 0,
                high: BEHIND_ALL,
            }),
        }
    }

    /// Judges a move to an address inside the function: the rule that it breaks, if it breaks one. A move into a head
    /// is counted, and one between two heads takes the same time whatever the program.
    ///
    /// `NoMemory` where there is no room for a head's first count of the whole run.
    pub(crate) fn enter(
        &mut self,
        functions: &[Function],
        totals: &mut Totals,
        to: u32,
    ) -> Result<Option<FactKind>, NoMemory>
        requires ordered { Ordered functions.now }
        requires frame { IsFrame functions.now self.old }
        requires few { AreFew (totals_of totals.old) }
        ensures moved { IfOk result (λ breach. (callers : List monitor.Frame)
            → at_head (find (λ l. l.head == to) (loops_of (map judged_function functions.now) self.old.entry))
            (frame_of functions.now self.old) callers (totals_of totals.old)
            ≡ verdict breach (watched (frame_of functions.now self.new) callers totals.new)) }
        ensures frame { OnOk result (IsFrame functions.now self.new) }
    {
        if self.low <= u64::from(to) && u64::from(to) < self.high {
            return Ok(None);
        }
        if self.place >= functions.len() {
            return Ok(None);
        }
        let loops = functions[self.place].loops.as_slice();
        let arrival = arrive(loops, self.counts.as_mut_slice(), totals, self.last, to)?;
        self.low = arrival.gap.low;
        self.high = arrival.gap.high;
        Ok(arrival.breach)
    }
}
