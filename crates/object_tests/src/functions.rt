//! A table of stored functions, asked each kind at its edges.

use action_fn::{
    ActEnd, ActionSet, ActionSource, FnTable, StoredFn, act_add, act_div, act_echo, act_fail,
    act_gcd, act_max, act_mul, act_triangle,
};
use mtapi_values::{Args, Kind, MtapiStatus};

/// The numbers from 1 to 16, as many as a list holds.
const SIXTEEN: [i64; 16] = [1, 2, 3, 4, 5, 6, 7, 8, 9, 10, 11, 12, 13, 14, 15, 16];

/// Kinds, arguments, and what they answer: none where they fail.
const EDGES: [(Kind, &[i64], &[i64]); 13] = [
    (Kind::Add, &[], &[0]),
    (Kind::Add, &[i64::MAX, 1, -1], &[]),
    (Kind::Mul, &[i64::MIN, 1], &[i64::MIN]),
    (Kind::Mul, &[4611686018427387904, 4, 0], &[]),
    (Kind::Max, &[-5, -2, -9], &[-2]),
    (Kind::Div, &[-7, 2], &[-3]),
    (Kind::Div, &[i64::MIN, -1], &[]),
    (Kind::Gcd, &[0, -7], &[7]),
    (Kind::Gcd, &[12, -18], &[6]),
    (Kind::Gcd, &[i64::MIN, 0], &[]),
    (Kind::Triangle, &[1000000], &[500000500000]),
    (Kind::Triangle, &[1000001], &[]),
    (Kind::Fail, &[], &[]),
];

/// The first 16 of these numbers.
fn args_of(values: &[i64]) -> Args {
    let mut args = Args::new();
    for value in values {
        args.push(*value);
    }
    args
}

/// Whether it answered these numbers, or none where it failed.
fn answers(end: ActEnd, numbers: &[i64]) -> bool {
    match end {
        ActEnd::Done(answered) => answered.as_slice() == numbers,
        ActEnd::Fails(status) => status == MtapiStatus::ErrActionFailed && numbers.is_empty(),
    }
}

#[test]
fn a_table_runs_each_kind(rt: HostRuntime) {
    let mut source = FnTable::new(
        StoredFn::new(Kind::Add, act_add),
        StoredFn::new(Kind::Mul, act_mul),
        StoredFn::new(Kind::Max, act_max),
        StoredFn::new(Kind::Div, act_div),
        StoredFn::new(Kind::Gcd, act_gcd),
        StoredFn::new(Kind::Echo, act_echo),
        StoredFn::new(Kind::Triangle, act_triangle),
        StoredFn::new(Kind::Fail, act_fail),
    );
    let mut table = source.for_worker(0);
    for (kind, args, wanted) in EDGES {
        let done = table.run(&rt, kind, args_of(args));
        assert!(rt; done.kind() == kind && answers(done.end(), wanted));
    }
    let echo = table.run(&rt, Kind::Echo, args_of(&SIXTEEN)).again();
    assert!(rt; echo.args().as_slice() == SIXTEEN.as_slice());
    assert!(rt; answers(echo.end(), &SIXTEEN));
}

/// Takes what may go to other threads and be shared by them.
fn may_cross_threads<T: Send + Sync>(_value: &T) {}

#[test]
fn values_may_cross_threads(_rt: HostRuntime) {
    let stored = StoredFn::new(Kind::Echo, act_echo);
    let done = stored.again().call(Args::new());
    may_cross_threads(&stored);
    may_cross_threads(&done);
}
