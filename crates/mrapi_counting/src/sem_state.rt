//! One semaphore.

ghost use Rattle.std.specs.Prelude.{◌≡◌, ◌≤◌, ◌<◌, ◌↔◌, IsTrue};
ghost use Rattle.std.specs.Result.{result_err};
ghost use Rattle.mtapi_values.specs.Conditions.{first};
ghost use Rattle.mtapi_objects.specs.Sems.{new_sem, total, sem_unlock_refusals};
ghost use Rattle.mrapi_counting.specs.SemCalls.{sem_look_answer, sem_after_look, sem_after_unlock};

use keyed_pool::HasId;
use mtapi_values::seats::SEATS;
use mtapi_values::{Look, MrapiStatus};
use std::marker::Model;

/// One semaphore: how often each seat holds it.
#[derive(Drop)]
pub(crate) struct SemState {
    id: u32,
    limit: u32,
    holdings: [u32; SEATS],
}

impl Model for SemState {
    ghost use Rattle.mtapi_objects.specs.Sems.{Sem};
    ghost use Rattle.mrapi_counting.specs.SemCalls.{IsSem};

    ghost Value = { Sem };

    ghost view = { λ s. record {
      id = s.id;
      limit = s.limit;
      holdings = s.holdings;
    } };

    ghost invariant = { λ s. IsSem s.limit s.holdings };
}

impl HasId for SemState {
    ghost id_of = { λ x. x.id };

    fn id(&self) -> u64 {
        u64::from(self.id)
    }
}

#[tactic(auto, using(crate::proofs::Totals::total_is_sum, std::proofs::lemmas::Grind::common_steps))]
impl SemState {
    pub(crate) fn new(id: u32, limit: u32) -> SemState
        requires { limit ≤ 65535 }
        ensures { result ≡ new_sem id limit }
    {
        SemState {
            id,
            limit,
            holdings: [0; SEATS],
        }
    }

    /// How often all seats together hold it.
    pub(crate) fn held(&self) -> u32
        ensures { result ≡ total self.now.holdings }
    {
        self.holdings.iter().sum()
    }

    pub(crate) fn look(&mut self, who: u32) -> Look<()>
        requires { who < 25 }
        ensures reply { result ≡ sem_look_answer self.old }
        ensures new { self.new ≡ sem_after_look who self.old }
    {
        let held: u32 = self.holdings.iter().sum();
        if held >= self.limit {
            return Look::Busy;
        }
        self.holdings[who as usize] += 1;
        Look::Got(())
    }

    pub(crate) fn unlock(&mut self, who: u32) -> Result<(), MrapiStatus>
        requires { who < 25 }
        ensures reply { result_err result ≡ first (sem_unlock_refusals who self.old) }
        ensures new { self.new ≡ sem_after_unlock who self.old }
    {
        if self.holdings[who as usize] == 0 {
            return Err(MrapiStatus::ErrSemNotlocked);
        }
        self.holdings[who as usize] -= 1;
        Ok(())
    }
}
