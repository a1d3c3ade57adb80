//! Statements on segments.

use crate::lists::{at, put};
use crate::machine::Machine;
use crate::state::{CALLERS, Outcome, Segment, State, marks_of};
use crate::statements::{Attempt, denied, executed, named};
use crate::table::{SegmentPlan, Site};
use mtapi_values::MrapiStatus;

/// How many of these segments are live.
fn live_count(segments: &[Segment]) -> usize {
    let mut count = 0usize;
    for segment in segments {
        if segment.live {
            count = count.saturating_add(1);
        }
    }
    count
}

/// The caller of this part is attached.
fn is_attached(segment: &Segment, part: usize) -> bool {
    at(&segment.attached, part) == Some(true)
}

/// The segment with or without this caller.
fn with_caller(segment: Segment, part: usize, attached: bool) -> Segment {
    let mut segment = segment;
    if part < CALLERS {
        segment.attached[part] = attached;
    }
    segment
}

/// Writes 0 into each cell of a segment that is kept.
fn clear(state: &mut State, plan: &SegmentPlan) {
    for cell in 0..plan.kept {
        put(&mut state.numbers, plan.first.saturating_add(cell), 0);
    }
}

impl Machine<'_> {
    /// The live segment of an id.
    pub(crate) fn segment_with(&self, state: &State, id: u32) -> Option<usize> {
        for (segment, now) in state.segments.as_slice().iter().enumerate() {
            if let Some(plan) = at(self.table.segments.as_slice(), segment) {
                if now.live && plan.id == id {
                    return Some(segment);
                }
            }
        }
        None
    }

    pub(crate) fn create_segment(&self, state: &mut State, site: Site) -> Attempt {
        let own = self.own(site);
        let Some(plan) = at(self.table.segments.as_slice(), own) else {
            return Attempt::Blocked;
        };
        if plan.cells < 1 || plan.cells > 4096 {
            return denied(MrapiStatus::ErrParameter);
        }
        if self.segment_with(state, plan.id).is_some() {
            return denied(MrapiStatus::ErrShmExists);
        }
        if live_count(state.segments.as_slice()) >= self.load.settings.objects() as usize {
            return denied(MrapiStatus::ErrShmLimit);
        }
        put(
            &mut state.segments,
            own,
            Segment {
                live: true,
                attached: [false; CALLERS],
                tallies: 0,
            },
        );
        named(own)
    }

    pub(crate) fn get_segment(&self, state: &State, id: u32) -> Attempt {
        match self.segment_with(state, id) {
            Some(segment) => named(segment),
            None => denied(MrapiStatus::ErrShmIdInvalid),
        }
    }

    /// The live segment of a name.
    fn live_segment(&self, state: &State, part: usize, place: u32) -> Option<(usize, Segment)> {
        let segment = self.bound(state, part, place)?;
        let now = at(state.segments.as_slice(), segment)?;
        if now.live { Some((segment, now)) } else { None }
    }

    pub(crate) fn delete_segment(&self, state: &mut State, part: usize, place: u32) -> Attempt {
        let Some((segment, now)) = self.live_segment(state, part, place) else {
            return denied(MrapiStatus::ErrShmInvalid);
        };
        if marks_of(&now.attached) > 0 || now.tallies > 0 {
            return denied(MrapiStatus::ErrShmAttached);
        }
        put(&mut state.segments, segment, Segment { live: false, ..now });
        if let Some(plan) = at(self.table.segments.as_slice(), segment) {
            clear(state, &plan);
        }
        executed()
    }

    pub(crate) fn attach(&self, state: &mut State, part: usize, place: u32) -> Attempt {
        let Some((segment, now)) = self.live_segment(state, part, place) else {
            return denied(MrapiStatus::ErrShmInvalid);
        };
        if is_attached(&now, part) {
            return denied(MrapiStatus::ErrShmAttached);
        }
        put(&mut state.segments, segment, with_caller(now, part, true));
        executed()
    }

    pub(crate) fn detach(&self, state: &mut State, part: usize, place: u32) -> Attempt {
        let Some((segment, now)) = self.live_segment(state, part, place) else {
            return denied(MrapiStatus::ErrShmInvalid);
        };
        if !is_attached(&now, part) {
            return denied(MrapiStatus::ErrShmNotattached);
        }
        put(&mut state.segments, segment, with_caller(now, part, false));
        executed()
    }

    /// Where a cell of a segment stands among the numbers of a state, if the segment has it.
    pub(crate) fn cell_place(&self, segment: usize, cell: u32) -> Option<usize> {
        let plan = at(self.table.segments.as_slice(), segment)?;
        if cell >= plan.cells {
            return None;
        }
        Some(plan.first.saturating_add(cell as usize))
    }

    /// The place of the cell that a read or a write names, or what it is refused for.
    fn named_cell(
        &self,
        state: &State,
        part: usize,
        place: u32,
        cell: u32,
    ) -> Result<usize, MrapiStatus> {
        let Some((segment, now)) = self.live_segment(state, part, place) else {
            return Err(MrapiStatus::ErrShmInvalid);
        };
        if !is_attached(&now, part) {
            return Err(MrapiStatus::ErrShmNotattached);
        }
        match self.cell_place(segment, cell) {
            Some(place) => Ok(place),
            None => Err(MrapiStatus::ErrParameter),
        }
    }

    pub(crate) fn read(&self, state: &mut State, site: Site, place: u32, cell: u32) -> Attempt {
        match self.named_cell(state, site.part, place, cell) {
            Ok(number) => {
                let value = at(state.numbers.as_slice(), number).unwrap_or(0);
                put(&mut state.numbers, self.own(site), value);
                Attempt::Makes(Outcome::Number)
            }
            Err(status) => denied(status),
        }
    }

    pub(crate) fn write(
        &self,
        state: &mut State,
        part: usize,
        place: u32,
        cell: u32,
        value: i64,
    ) -> Attempt {
        match self.named_cell(state, part, place, cell) {
            Ok(number) => {
                put(&mut state.numbers, number, value);
                executed()
            }
            Err(status) => denied(status),
        }
    }
}
