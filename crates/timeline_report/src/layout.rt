//! Which places, sessions and resources are drawn, and where. Lengths are in pixels.

use crate::drawing::{Written, width_of};
use crate::timeline::{Hold, Timeline};
use indexmap::IndexMap;
use lock_tree::Resource;
use std::alloc::{AllocError as NoMemory, Global};

/// The most places that a picture draws.
pub const MOST_PLACES: u64 = 1000;

/// The most sessions and resources that a picture draws, and the most rows of holders of a resource.
const MOST_SESSIONS: usize = 60;

const MOST_RESOURCES: usize = 40;

const MOST_ROWS: usize = 16;

/// Where the first lane begins, and the heights of the lane of a session and of a row of holders.
pub(crate) const TOP: u64 = 56;

pub(crate) const LANE: u64 = 38;

pub(crate) const ROW: u64 = 13;

/// The lane of a contended resource: its label, where it begins, the last lock of each row, the locks in it with their rows, in the order
/// in which they began, and how many more there would be.
#[derive(Drop)]
pub(crate) struct Lane {
    pub(crate) label: String,
    pub(crate) top: u64,
    rows: Vec<Hold>,
    pub(crate) holds: Vec<(Hold, usize)>,
    pub(crate) left_out: u64,
}

/// What is drawn, and where.
#[derive(Drop)]
pub(crate) struct Layout<'a> {
    pub(crate) alloc: Global,
    pub(crate) timeline: &'a Timeline,
    /// How many places are drawn, the width of the column of one, where the first begins, and where the lanes end.
    pub(crate) count: u64,
    pub(crate) step: u64,
    pub(crate) left: u64,
    pub(crate) bottom: u64,
    /// The sessions that have a call or an open transaction in the picture, in order, and how many more there would be.
    pub(crate) sessions: Vec<u16>,
    pub(crate) more_sessions: usize,
    /// The lanes of the resources for which a request waited, in the order of the first such waits, and how many more there would be.
    pub(crate) lanes: IndexMap<Resource, Lane>,
    pub(crate) more_resources: usize,
}

impl Lane {
    /// Adds a lock: in the session's own row if that is free again, or else in the first free one, or else in a new one.
    fn add(&mut self, hold: &Hold) -> Written {
        let mut index = self.rows.len();
        for (at, row) in self.rows.iter().enumerate() {
            let is_better = index == self.rows.len() || row.session == hold.session;
            if row.upto <= hold.from && is_better {
                index = at;
            }
        }
        if let Some(row) = self.rows.get_mut(index) {
            *row = *hold;
        } else if index < MOST_ROWS {
            self.rows.push(*hold)?;
        } else {
            self.left_out = self.left_out.saturating_add(1);
            return Ok(());
        }
        self.holds.push((*hold, index))?;
        Ok(())
    }
}

/// The lanes of the resources for which a request of the picture waited, in the order of the first such waits.
fn lanes_of(alloc: Global, timeline: &Timeline) -> Result<IndexMap<Resource, Lane>, NoMemory> {
    let mut lanes = IndexMap::new(alloc);
    for wait in &timeline.waits {
        let resource = wait.request.resource;
        if lanes.get(&resource).is_none() {
            let lane = Lane {
                label: format!(in alloc; "resource {resource}")?,
                top: 0,
                rows: Vec::new(alloc),
                holds: Vec::new(alloc),
                left_out: 0,
            };
            lanes.insert(resource, lane)?;
        }
    }
    Ok(lanes)
}

impl<'a> Layout<'a> {
    /// The layout of the picture of the calls that were noted.
    pub(crate) fn new(alloc: Global, timeline: &'a Timeline) -> Result<Layout<'a>, NoMemory> {
        let mut sessions = Vec::new(alloc);
        sessions.extend(timeline.bars.iter().map(|bar| bar.session))?;
        sessions.extend(timeline.marks.iter().map(|mark| mark.entry.session))?;
        sessions.sort_unstable();
        sessions.dedup();
        let lanes = lanes_of(alloc, timeline)?;
        let noted = timeline.noted.saturating_sub(timeline.from);
        let mut layout = Layout {
            alloc,
            timeline,
            count: noted.min(MOST_PLACES),
            step: 0,
            left: 0,
            bottom: 0,
            more_sessions: sessions.len().saturating_sub(MOST_SESSIONS),
            sessions,
            more_resources: lanes.len().saturating_sub(MOST_RESOURCES),
            lanes,
        };
        layout.sessions.truncate(MOST_SESSIONS);
        layout.lanes.truncate(MOST_RESOURCES);
        layout.place()?;
        Ok(layout)
    }

    /// Gives the columns their width, the locks their rows, and the lanes of resources their places.
    fn place(&mut self) -> Written {
        self.step = match self.count {
            0..=30 => 32,
            31..=60 => 20,
            61..=200 => 16,
            _ => 8,
        };
        for hold in &self.timeline.holds {
            if let Some(lane) = self.lanes.get_mut(&hold.resource) {
                lane.add(hold)?;
            }
        }
        let mut widest = width_of("session 1024");
        let height = (self.sessions.len() as u64).saturating_mul(LANE);
        let mut top = height.saturating_add(TOP + 20);
        for lane in self.lanes.values_mut() {
            widest = widest.max(width_of(&lane.label));
            lane.top = top;
            let rows = (lane.rows.len().max(1) as u64).saturating_mul(ROW);
            top = top.saturating_add(rows).saturating_add(20);
        }
        self.left = widest.saturating_add(20);
        self.bottom = top;
        Ok(())
    }

    /// Where the bars of the session's lane begin, `None` if the session isn't drawn.
    pub(crate) fn bars_at(&self, session: u16) -> Option<u64> {
        let index = self.sessions.binary_search(&session).ok()?;
        Some((index as u64).saturating_mul(LANE).saturating_add(TOP + 10))
    }

    /// The place behind the last that is drawn.
    pub(crate) fn upto(&self) -> u64 {
        self.timeline.from.saturating_add(self.count)
    }

    /// Where the column of the place begins; of one before the first column or behind the last, where that begins or ends.
    pub(crate) fn column(&self, place: u64) -> u64 {
        let columns = place.saturating_sub(self.timeline.from).min(self.count);
        self.left.saturating_add(columns.saturating_mul(self.step))
    }

    /// The middle of the column of the place; of one before the first column or behind the last, where that begins or ends.
    pub(crate) fn middle(&self, place: u64) -> u64 {
        if place < self.timeline.from || place >= self.upto() {
            return self.column(place);
        }
        self.column(place).saturating_add(self.step / 2)
    }
}
