//! The tasks that wait, which one entry may end though it doesn't name them.

use mtapi_machine::{Entry, Op, Reply};
use run_report::{Standings, follow_entry, no_standings};
use std::alloc::{AllocError, Global};

/// The tasks that haven't begun, as far as the entries of a run were followed. Which they are, and which entry ends them, is what the
/// report of a run is made of.
#[derive(Drop)]
pub struct WaitingTasks {
    alloc: Global,
    workers: u32,
    standings: Standings,
}

/// Whether an entry may end tasks that it doesn't name.
fn may_end_several(entry: &Entry) -> bool {
    match (&entry.op, &entry.reply) {
        (Op::QueueDisable { .. } | Op::QueueDelete { .. }, Reply::Ok) => true,
        (Op::ActionDisable { .. } | Op::ActionDelete { .. }, Reply::Ok) => true,
        (Op::Close, Reply::Ok) => true,
        _ => false,
    }
}

impl WaitingTasks {
    /// Before the first entry of a node with so many workers, of which the first 64 count.
    pub fn new(alloc: Global, workers: u32) -> Result<WaitingTasks, AllocError> {
        Ok(WaitingTasks {
            alloc,
            workers: workers.min(64),
            standings: no_standings(alloc, 0)?,
        })
    }

    /// Follows an entry. Gives the tasks that it ends though it doesn't name them.
    pub fn note(&mut self, entry: &Entry) -> Result<Vec<u64>, AllocError> {
        let mut ended = Vec::new(self.alloc);
        let workers = self.workers.min(64);
        if !may_end_several(entry) {
            follow_entry(self.alloc, &mut self.standings, workers, entry)?;
            return Ok(ended);
        }
        let before: Vec<u64> = self
            .standings
            .unstarted
            .keys()
            .copied()
            .collect(self.alloc)?;
        follow_entry(self.alloc, &mut self.standings, workers, entry)?;
        for task in before.as_slice() {
            if !self.standings.unstarted.contains_key(task) {
                ended.push(*task)?;
            }
        }
        Ok(ended)
    }
}
