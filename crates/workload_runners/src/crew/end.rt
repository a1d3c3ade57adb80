//! Main meets those that came back, and ends.

ghost use Rattle.std.specs.Prelude.{◌≡◌, ◌<◌, All, vec_len, vec_capacity};
ghost use Rattle.workload_runners.specs.Turns.{Seat};
ghost use Rattle.workload_runners.specs.Crews.{AreMet, IsEnded};

use node_core::{Journaled, Op, Reply};
use std::sync::Wait;
use turn_cell::{Spent, TurnCell, TurnSeat};
use turn_looks::turn;

/// Main's seat after its call, the seats that it met, and what it was answered.
#[derive(Drop)]
pub struct Ended {
    pub main: TurnSeat<Journaled>,
    pub others: Vec<TurnSeat<Journaled>>,
    pub answer: Result<Reply, Spent>,
}

// Main meets each of these seats, and then knows all that they have done.
fn meet_all(
    cell: &TurnCell<Journaled>,
    main: &mut TurnSeat<Journaled>,
    others: &mut Vec<TurnSeat<Journaled>>,
)
    requires main { main.old.cell ≡ cell.now.id }
    requires others { All (λ (s : Seat). s.cell ≡ cell.now.id) others.old.items }
    ensures met { AreMet main.old main.new others.old.items others.new.items }
    ensures room { (vec_len others.new ≡ vec_len others.old) × (vec_capacity others.new ≡ vec_capacity others.old) }
{
    for i in 0..others.len() {
        cell.meet(main, &mut others[i]);
    }
}

/// Main meets these seats, and then makes this call.
pub(crate) fn end_with<R: Wait>(
    rt: &R,
    cell: &TurnCell<Journaled>,
    main: TurnSeat<Journaled>,
    others: Vec<TurnSeat<Journaled>>,
    op: Op,
) -> Ended
    requires main { main.cell ≡ cell.now.id }
    requires others { All (λ (s : Seat). s.cell ≡ cell.now.id) others.items }
    ensures ended { IsEnded op main others.items result }
    ensures room { (vec_len result.others ≡ vec_len others) × (vec_capacity result.others ≡ vec_capacity others) }
{
    let mut main = main;
    let mut others = others;
    meet_all(cell, &mut main, &mut others);
    let answer = turn(rt, cell, &mut main, op);
    cell.work().ring_all();
    Ended {
        main,
        others,
        answer,
    }
}
