//! Verdicts: on the run of the empty workload without one entry, and on journals of slots that are used often.

use journal_check::{Verdict, check_run};
use mtapi_machine::{Entry, Op, Reply};
use mtapi_values::{GroupHandle, Layout, MtapiStatus, NodeAttr};
use node_core::{Journal, ShortList};
use std::alloc::Global;
use std::test::Fail;
use workload_file::{MemSource, read_workload};

const WORKER: u32 = 0;

const MAIN: u32 = 1;

// What a verdict is, told by a number: 0 for Yes, the number of an illegal entry, and this.
const NOT_RUN: u64 = u64::MAX;

// The verdict on a journal of layout one with these settings and entries, beside the empty workload.
fn verdict_on(alloc: Global, settings: NodeAttr, entries: &[Entry]) -> Result<u64, Fail> {
    let mut src = MemSource::new(b"".to_vec(alloc)?, 100, vec![in alloc]?);
    let load = read_workload(alloc, &mut src).map_err(|_| "workload")?;
    let mut kept = ShortList::new(alloc);
    for entry in entries {
        kept.push(
            Entry {
                who: entry.who,
                op: entry.op.again(),
                reply: entry.reply.again(),
            },
            0,
        )?;
    }
    let journal = Journal {
        layout: Layout::One,
        settings,
        callers: 1,
        entries: kept,
    };
    Ok(match check_run(alloc, &load, &journal)? {
        Verdict::Yes => 0,
        Verdict::Illegal { entry } => entry,
        Verdict::NotRun => NOT_RUN,
    })
}

// The entry at this place of the run of the empty workload.
fn entry_at(place: usize) -> Entry {
    let (who, op, reply) = match place {
        0 => (MAIN, Op::Initialize, Reply::Ok),
        1 => (MAIN, Op::Release, Reply::Ok),
        2 => (MAIN, Op::Close, Reply::Ok),
        3 => (WORKER, Op::Pick, Reply::Stop),
        _ => (MAIN, Op::Final, Reply::Ok),
    };
    Entry { who, op, reply }
}

// The verdict on the run without the entry at each place, and on the whole run.
const WITHOUT: [u64; 6] = [1, NOT_RUN, 3, 4, NOT_RUN, 0];

#[test]
fn one_entry_left_out(rt: HostRuntime) -> Result<(), Fail> {
    let alloc = rt.alloc();
    for place in 0..6_usize {
        let mut entries = Vec::new(alloc);
        for i in 0..5_usize {
            if i != place {
                entries.push(entry_at(i))?;
            }
        }
        assert_eq!(rt;
            verdict_on(alloc, NodeAttr::new(), &entries)?,
            WITHOUT[place]
        );
    }
    Ok(())
}

// The handles of a first slot, and those of two others.
const FIRST: u64 = (1 << 32) + 7;

const FIRST_AGAIN: u64 = (2 << 32) + 7;

const SECOND: u64 = (1 << 32) + 8;

const THIRD: u64 = (1 << 32) + 9;

// What is asked of main: a group, which is made under this handle; that it is deleted; or a group, for which
// there is no room.
#[derive(Clone, Copy, Drop)]
enum Ask {
    Make(u64),
    Delete(u64),
    Refuse,
}

fn asked(ask: Ask) -> Entry {
    let (op, reply) = match ask {
        Ask::Make(handle) => (Op::GroupCreate, Reply::Handle(handle)),
        Ask::Delete(handle) => (
            Op::GroupDelete {
                group: GroupHandle(handle),
            },
            Reply::Ok,
        ),
        Ask::Refuse => (Op::GroupCreate, Reply::Mtapi(MtapiStatus::ErrGroupLimit)),
    };
    Entry {
        who: MAIN,
        op,
        reply,
    }
}

// How often a slot is used, what is asked of a node that may have two groups, and the verdict.
const ROOM: [(u64, [Ask; 8], u64); 4] = [
    (
        1,
        [
            Ask::Make(FIRST),
            Ask::Make(SECOND),
            Ask::Refuse,
            Ask::Delete(FIRST),
            Ask::Refuse,
            Ask::Refuse,
            Ask::Delete(SECOND),
            Ask::Refuse,
        ],
        NOT_RUN,
    ),
    // The second slot is free again.
    (
        2,
        [
            Ask::Make(FIRST),
            Ask::Delete(FIRST),
            Ask::Make(FIRST_AGAIN),
            Ask::Delete(FIRST_AGAIN),
            Ask::Make(SECOND),
            Ask::Refuse,
            Ask::Delete(SECOND),
            Ask::Refuse,
        ],
        9,
    ),
    (
        2,
        [
            Ask::Make(FIRST),
            Ask::Make(SECOND),
            Ask::Refuse,
            Ask::Delete(FIRST),
            Ask::Make(FIRST_AGAIN),
            Ask::Delete(FIRST_AGAIN),
            Ask::Refuse,
            Ask::Delete(SECOND),
        ],
        NOT_RUN,
    ),
    // The first slot has retired.
    (
        2,
        [
            Ask::Make(FIRST),
            Ask::Make(SECOND),
            Ask::Delete(FIRST),
            Ask::Make(FIRST_AGAIN),
            Ask::Delete(FIRST_AGAIN),
            Ask::Refuse,
            Ask::Make(THIRD),
            Ask::Refuse,
        ],
        8,
    ),
];

#[test]
fn room_after_many_ends(rt: HostRuntime) -> Result<(), Fail> {
    let alloc = rt.alloc();
    for (generations, asks, verdict) in ROOM {
        let mut settings = NodeAttr::new();
        let _ = settings.set(NodeAttr::GROUPS, 2);
        let _ = settings.set(NodeAttr::GENERATIONS, generations);
        let mut entries = Vec::new(alloc);
        entries.push(entry_at(0))?;
        for ask in asks {
            entries.push(asked(ask))?;
        }
        assert_eq!(rt; verdict_on(alloc, settings, &entries)?, verdict);
    }
    Ok(())
}
