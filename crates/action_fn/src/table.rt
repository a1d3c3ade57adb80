//! One stored function for each pure kind.

ghost use Rattle.std.specs.Prelude.{◌≡◌};
ghost use Rattle.mtapi_values.specs.declared.kinds.Kind.TheVariants as Kind;

use crate::finished::Finished;
use crate::sets::{ActionSet, ActionSource};
use crate::stored::StoredFn;
use mtapi_values::{Args, Kind};
use std::sync::Wait;

/// One stored function for each pure kind. It is made where the functions are named, in `main` or a test.
#[derive(Drop)]
pub struct FnTable {
    add: StoredFn,
    mul: StoredFn,
    max: StoredFn,
    div: StoredFn,
    gcd: StoredFn,
    echo: StoredFn,
    triangle: StoredFn,
    fail: StoredFn,
    ghost add_in_place: { add.kind ≡ Kind.Add },
    ghost mul_in_place: { mul.kind ≡ Kind.Mul },
    ghost max_in_place: { max.kind ≡ Kind.Max },
    ghost div_in_place: { div.kind ≡ Kind.Div },
    ghost gcd_in_place: { gcd.kind ≡ Kind.Gcd },
    ghost echo_in_place: { echo.kind ≡ Kind.Echo },
    ghost triangle_in_place: { triangle.kind ≡ Kind.Triangle },
    ghost fail_in_place: { fail.kind ≡ Kind.Fail },
}

impl FnTable {
    /// Puts each function in the place of its kind.
    pub fn new(
        add: StoredFn,
        mul: StoredFn,
        max: StoredFn,
        div: StoredFn,
        gcd: StoredFn,
        echo: StoredFn,
        triangle: StoredFn,
        fail: StoredFn,
    ) -> FnTable
        requires add { add.kind ≡ Kind.Add }
        requires mul { mul.kind ≡ Kind.Mul }
        requires max { max.kind ≡ Kind.Max }
        requires div { div.kind ≡ Kind.Div }
        requires gcd { gcd.kind ≡ Kind.Gcd }
        requires echo { echo.kind ≡ Kind.Echo }
        requires triangle { triangle.kind ≡ Kind.Triangle }
        requires fail { fail.kind ≡ Kind.Fail }
    {
        FnTable {
            add,
            mul,
            max,
            div,
            gcd,
            echo,
            triangle,
            fail,
        }
    }

    /// The same functions again. It takes no memory.
    pub fn again(&self) -> FnTable {
        FnTable {
            add: self.add.again(),
            mul: self.mul.again(),
            max: self.max.again(),
            div: self.div.again(),
            gcd: self.gcd.again(),
            echo: self.echo.again(),
            triangle: self.triangle.again(),
            fail: self.fail.again(),
        }
    }
}

impl ActionSet for FnTable {
    fn run<R: Wait>(&mut self, _rt: &R, kind: Kind, args: Args) -> Finished {
        match kind {
            Kind::Add => self.add.call(args),
            Kind::Mul => self.mul.call(args),
            Kind::Max => self.max.call(args),
            Kind::Div => self.div.call(args),
            Kind::Gcd => self.gcd.call(args),
            Kind::Echo => self.echo.call(args),
            Kind::Triangle => self.triangle.call(args),
            Kind::Fail | Kind::Watch | Kind::Tally => self.fail.call(args),
        }
    }
}

impl ActionSource for FnTable {
    type Set = FnTable;

    fn for_worker(&mut self, _worker: u32) -> FnTable {
        self.again()
    }
}
