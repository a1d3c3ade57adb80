//! A node that follows another one under handles and limits of its own: the laws by which both answer alike, the counts that tell which
//! handles are fresh, and what turns ops and replies of one into those of the other. Also where a list of entries stops being legal.
#![tactic(auto)]

mod equal;
mod laws;
mod maps;
mod ops;

pub use equal::same_reply;
pub use laws::{
    law_counts, law_gone, law_lasts, law_refusals, law_renaming, law_verdicts, worked_renaming,
};
pub use maps::OtherHandles;
pub use ops::{
    Rename, other_action, other_group, other_member, other_mutex, other_queue, other_rwl,
    other_sem, other_shmem, other_task, renamed_answer, renamed_op,
};
