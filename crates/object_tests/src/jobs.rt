//! Two actions of one job, in their only two places.

use job_table::*;
use mtapi_values::{Kind, Mask, MtapiStatus};
use std::test::Fail;

#[test]
fn one_job_with_two_actions(rt: HostRuntime) -> Result<(), Fail> {
    let mut actions = Actions::new(rt.alloc(), 2, 1)?;
    assert!(rt; actions.cover(7) == Cover::NoAction);
    assert!(rt; actions.create(0, Kind::Add, Mask(1)) == Err(MtapiStatus::ErrJobInvalid));
    let add = actions.create(7, Kind::Add, Mask(1)).ok().ok_or("full")?;
    let max = actions.create(7, Kind::Max, Mask(6)).ok().ok_or("full")?;
    assert!(rt; actions.create(7, Kind::Max, Mask(6)) == Err(MtapiStatus::ErrActionLimit));
    assert!(rt; actions.cover(7) == Cover::Cores(Mask(7)));
    assert!(rt; actions.choice(7, 2) == Some((max, Kind::Max)));
    assert!(rt; actions.choice(7, 3) == None);
    assert!(rt; actions.disable(max) == Ok(7));
    assert!(rt; actions.cover(7) == Cover::Cores(Mask(1)));
    assert!(rt; actions.disable(add) == Ok(7));
    assert!(rt; actions.cover(7) == Cover::AllDisabled);
    assert!(rt; actions.enable(max) == Ok(7));
    assert!(rt; actions.choice(7, 1) == Some((max, Kind::Max)));
    assert!(rt; actions.delete(max) == Ok(7));
    assert!(rt; actions.delete(max) == Err(MtapiStatus::ErrActionInvalid));
    assert!(rt; actions.create(7, Kind::Max, Mask(6)) == Err(MtapiStatus::ErrActionLimit));
    Ok(())
}
