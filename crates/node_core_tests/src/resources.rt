//! A handle that names nothing, in every op on a resource and in every phase.

ghost use Rattle.std.specs.Prelude.{◌≡◌, ◌<◌, true};
ghost use Rattle.mtapi_machine.specs.Answers.{is_mrapi};

use mtapi_machine::{Op, Phase, Reply};
use mtapi_renaming::Rename;
use mtapi_values::{
    MrapiStatus, MutexHandle, NodeAttr, ObjectKind, RwlHandle, SemHandle, ShmemHandle,
};
use node_resources::*;
use std::test::Fail;

const MAIN: u32 = 2;

/// How many ops there are: five of each kind, and seven of segments.
const OPS: u32 = 22;

// The op of this number, on an object of the id 9 or of this handle.
fn numbered(op: u32, handle: u64) -> Op
    ensures { is_mrapi result ≡ true }
{
    let mutex = MutexHandle(handle);
    let sem = SemHandle(handle);
    let rwl = RwlHandle(handle);
    let shmem = ShmemHandle(handle);
    match op {
        0 => Op::MutexCreate {
            id: 9,
            recursive: true,
        },
        1 => Op::MutexGet { id: 9 },
        2 => Op::MutexDelete { mutex },
        3 => Op::MutexLook { mutex, last: false },
        4 => Op::MutexUnlock { mutex, key: 1 },
        5 => Op::SemCreate { id: 9, limit: 1 },
        6 => Op::SemGet { id: 9 },
        7 => Op::SemDelete { sem },
        8 => Op::SemLook { sem, last: false },
        9 => Op::SemUnlock { sem },
        10 => Op::RwlCreate { id: 9, limit: 1 },
        11 => Op::RwlGet { id: 9 },
        12 => Op::RwlDelete { rwl },
        13 => Op::RwlLook {
            rwl,
            writer: true,
            last: false,
        },
        14 => Op::RwlUnlock { rwl, writer: true },
        15 => Op::ShmemCreate { id: 9, cells: 4 },
        16 => Op::ShmemGet { id: 9 },
        17 => Op::ShmemDelete { shmem },
        18 => Op::ShmemAttach { shmem },
        19 => Op::ShmemDetach { shmem },
        20 => Op::ShmemRead { shmem, cell: 3 },
        _ => Op::ShmemWrite {
            shmem,
            cell: 3,
            value: -7,
        },
    }
}

// Handles stand for themselves.
struct Same;

impl Rename for Same {
    ghost renaming = { λ _ _ handle. handle };

    fn other(&self, kind: ObjectKind, handle: u64) -> u64 {
        let _ = kind;
        handle
    }
}

fn ask(resources: &mut Resources, gate: Gate, who: u32, op: u32, handle: u64) -> Reply
    requires { who < 25 }
{
    resources.execute(&Same, gate, who, &numbered(op, handle))
}

fn is_status(reply: &Reply, wanted: MrapiStatus) -> bool {
    matches!(reply, Reply::Mrapi(status) if *status == wanted)
}

fn gate(phase: Phase) -> Gate {
    Gate { phase, workers: 2 }
}

fn with_room_for_one(rt: HostRuntime) -> Result<Resources, Fail> {
    let mut settings = NodeAttr::new();
    let _ = settings.set(NodeAttr::OBJECTS, 1);
    let _ = settings.set(NodeAttr::GENERATIONS, 2);
    Ok(Resources::init(rt.alloc(), settings)?)
}

// The handle under which the first object of a kind stands.
const FIRST: u64 = 0x1_0000_0000;

// The kind of an op, by its place in this table.
fn kind_of(op: u32) -> usize
    ensures { result < 4 }
{
    match op {
        0..=4 => 0,
        5..=9 => 1,
        10..=14 => 2,
        _ => 3,
    }
}

// Handles that name no live object of a kind, while the second one lives: 0, one past the end, an older and a newer one, and others.
const WRONG: [u64; 6] = [
    0,
    0x2_0000_0001,
    0x1_0000_0000,
    0x3_0000_0000,
    0x2_0500_0000,
    0xFFFF_FFFF_FFFF_FFFF,
];

const INVALID: [MrapiStatus; 4] = [
    MrapiStatus::ErrMutexInvalid,
    MrapiStatus::ErrSemInvalid,
    MrapiStatus::ErrRwlInvalid,
    MrapiStatus::ErrShmInvalid,
];

const PHASES: [Phase; 4] = [Phase::New, Phase::Open, Phase::Closing, Phase::Closed];

// Whether the phase carries this op out: in Closing nothing is made and nothing given up.
fn is_carried_out(op: u32, phase: Phase) -> bool {
    match phase {
        Phase::New | Phase::Closed => false,
        Phase::Open => true,
        Phase::Closing => !matches!(op, 0 | 2 | 5 | 7 | 10 | 12 | 15 | 17),
    }
}

// Makes an object of each kind, gives it up, and makes another.
fn second_objects(resources: &mut Resources) {
    for op in [0u32, 5, 10, 15] {
        let _ = ask(resources, gate(Phase::Open), MAIN, op, 0);
        let _ = ask(resources, gate(Phase::Open), MAIN, op + 2, FIRST);
        let _ = ask(resources, gate(Phase::Open), MAIN, op, 0);
    }
}

#[test]
fn a_handle_that_names_nothing_is_invalid_in_every_op(rt: HostRuntime) -> Result<(), Fail> {
    let mut resources = with_room_for_one(rt)?;
    second_objects(&mut resources);
    for phase in PHASES {
        for op in 0..OPS {
            if matches!(op, 0 | 1 | 5 | 6 | 10 | 11 | 15 | 16) {
                continue;
            }
            for handle in WRONG {
                let want = if is_carried_out(op, phase) {
                    INVALID[kind_of(op)]
                } else {
                    MrapiStatus::ErrNodeNotinit
                };
                let got = ask(&mut resources, gate(phase), MAIN, op, handle);
                assert!(rt; is_status(&got, want));
            }
        }
    }
    Ok(())
}
