//! Cores that two masks share.

ghost use Rattle.std.specs.Prelude.{◌≡◌, ◌≤◌, ◌<◌, ◌&&◌};
ghost use Rattle.mtapi_values.specs.Masks.{in_mask};
ghost use Rattle.mtapi_objects.specs.Actions.{some_below};

use mtapi_values::Mask;

// Whether the core is in the mask.
pub(crate) fn has_core(mask: Mask, core: u32) -> bool
    requires { core < 64 }
    ensures { result ≡ in_mask core mask.0 }
{
    mask.0 >> core & 1 == 1
}

// Whether the core is in both masks.
fn has_both(a: Mask, b: Mask, core: u32) -> bool
    requires { core < 64 }
    ensures { result ≡ (in_mask core a.0 && in_mask core b.0) }
{
    has_core(a, core) && has_core(b, core)
}

/// Whether some core below this number is in both masks.
pub fn share_core(cores: u32, a: Mask, b: Mask) -> bool
    requires { cores ≤ 64 }
    ensures { some_below cores (λ w. in_mask w a.0 && in_mask w b.0) ≡ result }
{
    for core in 0..cores {
        if has_both(a, b, core) {
            return true;
        }
    }
    false
}
