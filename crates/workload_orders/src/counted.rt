//! How many reports there are, by sums over what the steps settle.

use crate::edges::{Edge, Edges};
use crate::ways::Way;
use indexmap::IndexSet;
use std::alloc::{AllocError, Global};

/// The sums that are kept at once at most.
const MOST_SUMS: usize = 2_000_000;

/// What stands for a set of lines: the sums of two numbers for each line. That two sets have the same is so unlikely that it is left out.
#[derive(Clone, Copy, Drop, PartialEq, Eq, Hash)]
struct Sum {
    first: u64,
    second: u64,
}

const NO_LINES: Sum = Sum {
    first: 0,
    second: 0,
};

/// A number that is spread over all 64 bits.
fn spread(number: u64) -> u64 {
    let a = number.wrapping_mul(0x9E37_79B9_7F4A_7C15);
    let b = (a ^ (a >> 30)).wrapping_mul(0xBF58_476D_1CE4_E5B9);
    let c = (b ^ (b >> 27)).wrapping_mul(0x94D0_49BB_1331_11EB);
    c ^ (c >> 31)
}

/// The sum of these lines.
fn sum_of(lines: &[usize]) -> Sum {
    let mut sum = NO_LINES;
    for line in lines {
        let number = (*line as u64).wrapping_mul(2);
        sum.first = sum.first.wrapping_add(spread(number.wrapping_add(1)));
        sum.second = sum.second.wrapping_add(spread(number.wrapping_add(2)));
    }
    sum
}

/// What is known of a state: the sums of what may be settled from there on.
#[derive(Drop)]
enum Sums {
    Open,
    Known(IndexSet<Sum>),
    /// They aren't needed any more.
    Given,
}

/// The sums of all states.
#[derive(Drop)]
struct Counting {
    sums: Vec<Sums>,
    /// Of each state, how many steps that lead to it are from states whose sums aren't known.
    waiting: Vec<usize>,
    /// How many sums are kept.
    kept: usize,
}

/// Adds each of a state's sums with that of one step to it.
fn add_shifted(sums: &IndexSet<Sum>, by: Sum, into: &mut IndexSet<Sum>) -> Result<(), AllocError> {
    for sum in sums.as_slice() {
        into.insert(Sum {
            first: sum.first.wrapping_add(by.first),
            second: sum.second.wrapping_add(by.second),
        })?;
    }
    Ok(())
}

impl Counting {
    /// Whether the sums of all states are known that a state's steps lead to.
    fn is_ready(&self, edges: &[Edge]) -> bool {
        for edge in edges {
            if let Some(Sums::Open) = self.sums.get(edge.to) {
                return false;
            }
        }
        true
    }

    /// One step that leads to a state is done with: after the last one its sums aren't kept.
    fn let_go(&mut self, place: usize) {
        if place >= self.waiting.len() || place >= self.sums.len() {
            return;
        }
        self.waiting[place] = self.waiting[place].saturating_sub(1);
        if self.waiting[place] > 0 {
            return;
        }
        if let Sums::Known(sums) = &self.sums[place] {
            self.kept = self.kept.saturating_sub(sums.len());
        }
        self.sums[place] = Sums::Given;
    }

    /// Works out the sums of a state.
    fn sum(
        &mut self,
        alloc: Global,
        edges: &Edges,
        way: Way,
        place: usize,
    ) -> Result<(), AllocError> {
        let mut sums = IndexSet::new(alloc);
        if way == Way::Ended {
            sums.insert(NO_LINES)?;
        }
        for edge in edges.of(place) {
            if let Some(Sums::Known(after)) = self.sums.get(edge.to) {
                add_shifted(after, sum_of(edges.lines_of(edge)), &mut sums)?;
            }
        }
        for edge in edges.of(place) {
            self.let_go(edge.to);
        }
        self.kept = self.kept.saturating_add(sums.len());
        if place < self.sums.len() {
            self.sums[place] = Sums::Known(sums);
        }
        Ok(())
    }

    /// Works out the sums of a state, if it is time to. Whether they weren't known before.
    fn try_sum(
        &mut self,
        alloc: Global,
        edges: &Edges,
        way: Way,
        place: usize,
    ) -> Result<bool, AllocError> {
        let open = matches!(self.sums.get(place), Some(Sums::Open));
        if !open || !self.is_ready(edges.of(place)) {
            return Ok(false);
        }
        self.sum(alloc, edges, way, place)?;
        Ok(true)
    }

    /// Goes over all states, the last one first. Whether something new is known, and not too much is kept.
    fn go_over(&mut self, alloc: Global, edges: &Edges, ways: &[Way]) -> Result<bool, AllocError> {
        let mut changed = false;
        for (place, way) in ways.iter().enumerate().rev() {
            if self.kept > MOST_SUMS {
                return Ok(false);
            }
            if self.try_sum(alloc, edges, *way, place)? {
                changed = true;
            }
        }
        Ok(changed)
    }
}

/// Of each state, how many steps lead to it; the first one has one more, so that its sums are kept.
fn waiting_for(alloc: Global, edges: &Edges, count: usize) -> Result<Vec<usize>, AllocError> {
    let mut waiting = vec![in alloc; 0usize; count]?;
    if count > 0 {
        waiting[0] = 1;
    }
    for edge in &edges.edges {
        if edge.to < waiting.len() {
            waiting[edge.to] = waiting[edge.to].saturating_add(1);
        }
    }
    Ok(waiting)
}

/// How many reports the runs have, of whose states these are all. None where that is too much to count.
pub(crate) fn count_of(
    alloc: Global,
    edges: &Edges,
    ways: &[Way],
) -> Result<Option<usize>, AllocError> {
    let mut counting = Counting {
        sums: Vec::new(alloc),
        waiting: waiting_for(alloc, edges, ways.len())?,
        kept: 0,
    };
    for _ in ways {
        counting.sums.push(Sums::Open)?;
    }
    for _ in 0..ways.len() {
        if !counting.go_over(alloc, edges, ways)? {
            break;
        }
    }
    match counting.sums.first() {
        Some(Sums::Known(sums)) => Ok(Some(sums.len())),
        _ => Ok(None),
    }
}
