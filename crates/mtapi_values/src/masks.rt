//! Sets of cores.

ghost use Rattle.std.specs.Prelude.{◌≡◌, ◌<◌, ◌≤◌, ◌^◌, ◌-◌, ◌↔◌, ℕ, Ok, Err, OnOk, OnErr, nat_lt, if◌then◌else◌};
ghost use Rattle.mtapi_values.specs.declared.statuses.MtapiStatus.TheVariants.{ErrCoreNum};
ghost use Rattle.mtapi_values.specs.Masks.{in_mask, SetsCore};

use crate::statuses::MtapiStatus;

/// The number of cores that a mask speaks of.
const CORES: u32 = 64;

/// A set of the cores 0 to 63: bit c stands for core c.
#[derive(Clone, Copy, Debug, Drop, PartialEq, Eq)]
pub struct Mask(pub u64);

impl Mask {
    /// All 64 cores, or none.
    pub fn init(all: bool) -> Mask
        ensures bits { result.0 ≡ (if all then 2 ^ 64 - 1 else 0) }
        ensures cores { (core : ℕ) → core < 64 → in_mask core result.0 ≡ all }
    {
        Mask(if all { u64::MAX } else { 0 })
    }

    /// Puts a core into the set or takes it out.
    ///
    /// # Errors
    ///
    /// - `ErrCoreNum`: the core isn't 0 to 63. The set stays as it was.
    pub fn set(&mut self, core: u32, on: bool) -> Result<(), MtapiStatus>
        ensures answers { result ≡ (if nat_lt core 64 then Ok tt else Err ErrCoreNum) }
        ensures set { core < 64 → SetsCore core on self.old.0 self.new.0 }
        ensures refused { OnErr result (self.new ≡ self.old) }
    {
        if core >= CORES {
            return Err(MtapiStatus::ErrCoreNum);
        }
        self.0 = with_core(self.0, core, on);
        Ok(())
    }

    /// Whether the core is in the set.
    ///
    /// # Errors
    ///
    /// - `ErrCoreNum`: the core isn't 0 to 63.
    pub fn get(self, core: u32) -> Result<bool, MtapiStatus>
        ensures { result ≡ (if nat_lt core 64 then Ok (in_mask core self.0) else Err ErrCoreNum) }
    {
        if core >= CORES {
            return Err(MtapiStatus::ErrCoreNum);
        }
        Ok(self.0 >> core & 1 == 1)
    }
}

/// These bits with the one of a core set or cleared.
#[tactic(auto, using(crate::proofs::MaskLemmas::set_core, crate::proofs::MaskLemmas::clear_core))]
fn with_core(bits: u64, core: u32, on: bool) -> u64
    requires { core < 64 }
    ensures { SetsCore core on bits result }
{
    let bit = 1 << core;
    if on { bits | bit } else { bits & !bit }
}
