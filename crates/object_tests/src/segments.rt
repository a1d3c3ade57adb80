use mrapi_shmem::*;
use mtapi_values::MrapiStatus;
use std::test::Fail;

#[test]
fn cells_are_zero_again_in_a_new_segment(rt: HostRuntime) -> Result<(), Fail> {
    let mut segments = Segments::new(rt.alloc(), 1, 10)?;
    let s = segments.create(1, 1).ok().ok_or("refused")?;
    assert!(rt; segments.attach(s, 0) == Ok(()));
    assert!(rt; segments.write(s, 0, 0, 7) == Ok(()));
    assert!(rt; segments.read(s, 0, 0) == Ok(7));
    assert!(rt; segments.delete(s) == Err(MrapiStatus::ErrShmAttached));
    assert!(rt; segments.detach(s, 0) == Ok(()));
    assert!(rt; segments.delete(s) == Ok(()));
    let r = segments.create(1, 1).ok().ok_or("refused")?;
    assert!(rt; segments.attach(r, 0) == Ok(()));
    assert!(rt; segments.read(r, 0, 0) == Ok(0));
    assert!(rt; segments.attach(s, 0) == Err(MrapiStatus::ErrShmInvalid));
    Ok(())
}

#[test]
fn one_place_has_one_segment(rt: HostRuntime) -> Result<(), Fail> {
    let mut segments = Segments::new(rt.alloc(), 1, 2)?;
    assert!(rt; segments.create(1, 0) == Err(MrapiStatus::ErrParameter));
    assert!(rt; segments.create(1, 4097) == Err(MrapiStatus::ErrParameter));
    assert!(rt; segments.get(1) == Err(MrapiStatus::ErrShmIdInvalid));
    let s = segments.create(1, 4096).ok().ok_or("refused")?;
    assert!(rt; segments.cell_count(s) == Some(4096));
    assert!(rt; segments.create(1, 1) == Err(MrapiStatus::ErrShmExists));
    assert!(rt; segments.create(2, 1) == Err(MrapiStatus::ErrShmLimit));
    assert!(rt; segments.get(1) == Ok(s));
    assert!(rt; segments.attach(s, 24) == Ok(()));
    assert!(rt; segments.attach(s, 24) == Err(MrapiStatus::ErrShmAttached));
    assert!(rt; segments.delete(s) == Err(MrapiStatus::ErrShmAttached));
    assert!(rt; segments.detach(s, 24) == Ok(()));
    assert!(rt; segments.detach(s, 24) == Err(MrapiStatus::ErrShmNotattached));
    assert!(rt; segments.delete(s) == Ok(()));
    assert!(rt; segments.delete(s) == Err(MrapiStatus::ErrShmInvalid));
    assert!(rt; segments.cell_count(s) == None);
    let r = segments.create(1, 1).ok().ok_or("refused")?;
    assert!(rt; segments.delete(r) == Ok(()));
    assert!(rt; segments.create(1, 1) == Err(MrapiStatus::ErrShmLimit));
    Ok(())
}

#[test]
fn cells_are_for_those_who_are_attached(rt: HostRuntime) -> Result<(), Fail> {
    let mut segments = Segments::new(rt.alloc(), 2, 2)?;
    let s = segments.create(1, 2).ok().ok_or("refused")?;
    assert!(rt; segments.read(s, 3, 0) == Err(MrapiStatus::ErrShmNotattached));
    assert!(rt; segments.write(s, 3, 9, 1) == Err(MrapiStatus::ErrShmNotattached));
    assert!(rt; segments.attach(s, 3) == Ok(()));
    assert!(rt; segments.write(s, 3, 1, -5) == Ok(()));
    assert!(rt; segments.read(s, 3, 1) == Ok(-5));
    assert!(rt; segments.read(s, 3, 0) == Ok(0));
    assert!(rt; segments.read(s, 3, 2) == Err(MrapiStatus::ErrParameter));
    assert!(rt; segments.write(s, 3, 2, 1) == Err(MrapiStatus::ErrParameter));
    Ok(())
}
