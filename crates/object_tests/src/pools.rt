//! Pools through their calls: places that are used again, values that are dropped, and many turns beside a plain list.

use handle_pool::*;
use std::cell::Cell;
use std::collections::VecDeque;
use std::test::Fail;

// The handle of this slot in this generation.
fn handle_of(slot: u32, generation: u32) -> u64 {
    u64::from(generation) * SPAN + u64::from(slot)
}

#[test]
fn one_slot_of_two_generations(rt: HostRuntime) -> Result<(), Fail> {
    let mut pool = Pool::new(rt.alloc(), 1, 2)?;
    assert!(rt; pool.insert(7) == Ok(handle_of(0, 1)));
    assert!(rt; pool.remove(handle_of(0, 1)) == Some(7));
    assert!(rt; pool.insert(8) == Ok(handle_of(0, 2)));
    assert!(rt; pool.get(handle_of(0, 1)).copied() == None);
    assert!(rt; pool.remove(handle_of(0, 2)) == Some(8));
    assert!(rt; pool.insert(9) == Err(9));
    assert!(rt; pool.live() == 0);
    assert!(rt; pool.retired() == 1);
    Ok(())
}

#[test]
fn a_used_place_has_another_handle(rt: HostRuntime) -> Result<(), Fail> {
    let mut pool = Pool::new(rt.alloc(), 2, 2)?;
    assert!(rt; pool.insert(1).is_ok() == true);
    let second = pool.insert(2).ok().ok_or("full")?;
    assert!(rt; pool.insert(3) == Err(3) && pool.live() == 2 && pool.retired() == 0);
    assert!(rt; pool.remove(second) == Some(2));
    assert!(rt; pool.insert(4).ok().map(u128::from) == Some(u128::from(second) + u128::from(SPAN)));
    assert!(rt; pool.get(second).copied() == None);
    Ok(())
}

// In turn i the oldest live value goes where i is divisible by 3 or 50 values are live, and else i comes.
#[test]
fn many_turns_answer_as_a_plain_list_does(rt: HostRuntime) -> Result<(), Fail> {
    let mut pool = Pool::new(rt.alloc(), 50, 1000)?;
    let mut live = VecDeque::new(rt.alloc());
    let mut turns = vec![in rt.alloc(); 0u64; 50]?;
    let mut retired = Vec::new(rt.alloc());
    for i in 1..100_001u64 {
        let leaves = i % 3 == 0 || live.len() == 50;
        let oldest = if leaves { live.pop_front() } else { None };
        if let Some((handle, value)) = oldest {
            assert!(rt; pool.get(handle).copied() == Some(value));
            assert!(rt; pool.remove(handle) == Some(value));
            assert!(rt; pool.get(handle).copied() == None);
            if handle / SPAN == 1000 {
                retired.push(handle)?;
            }
        } else {
            let full = live.len().wrapping_add(retired.len()) == 50;
            match pool.insert(i) {
                Ok(handle) => {
                    assert!(rt; full == false);
                    assert!(rt; pool.get(handle).copied() == Some(i));
                    let slot = (handle % SPAN) as usize;
                    let turn = turns.get_mut(slot).ok_or("no such slot")?;
                    *turn = turn.wrapping_add(1);
                    assert!(rt; handle / SPAN == *turn);
                    live.push_back((handle, i))?;
                }
                Err(back) => {
                    assert!(rt; full == true);
                    assert!(rt; back == i);
                }
            }
        }
        assert!(rt; u64::from(pool.live()) == live.len() as u64);
        assert!(rt; u64::from(pool.retired()) == retired.len() as u64);
    }
    Ok(())
}

// A pool may go to another thread where its values may, and may be shared where these may.
fn goes<S: Send>(value: S) -> S {
    value
}

fn is_shared<S: Sync>(_value: &S) {}

fn pool_goes<T: Send>(pool: Pool<T>) -> Pool<T> {
    goes(pool)
}

fn pool_is_shared<T: Sync>(pool: &Pool<T>) {
    is_shared(pool);
}

#[test]
fn a_pool_may_cross_threads(rt: HostRuntime) -> Result<(), Fail> {
    let pool = pool_goes(Pool::<u64>::new(rt.alloc(), 1, 1)?);
    pool_is_shared(&pool);
    Ok(())
}

// A value that counts how often it is dropped.
struct Counted<'a>(&'a Cell<u32>);

impl Drop for Counted<'_> {
    fn drop(self) {
        let Counted(drops) = self;
        drops.set(drops.get().wrapping_add(1));
    }
}

// The slots end as: in use, retired, empty again, never used.
#[test]
fn the_end_of_a_pool_drops_each_live_value_once(rt: HostRuntime) -> Result<(), Fail> {
    let drops = [Cell::new(0), Cell::new(0), Cell::new(0), Cell::new(0)];
    {
        let mut pool = Pool::new(rt.alloc(), 4, 2)?;
        let kept = pool.insert(Counted(&drops[0])).ok().ok_or("full")?;
        let first = pool.insert(Counted(&drops[1])).ok().ok_or("full")?;
        let other = pool.insert(Counted(&drops[2])).ok().ok_or("full")?;
        let removed = pool.remove(first);
        assert!(rt; removed.is_some() == true);
        assert!(rt; drops[1].get() == 0);
        drop(removed);
        assert!(rt; drops[1].get() == 1);
        let second = pool.insert(Counted(&drops[3])).ok().ok_or("full")?;
        drop(pool.remove(second));
        drop(pool.remove(other));
        assert!(rt; pool.is_live(kept) == true);
        assert!(rt; drops[0].get() == 0);
    }
    for count in &drops {
        assert!(rt; count.get() == 1);
    }
    Ok(())
}
