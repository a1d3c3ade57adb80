//! A mark for each of the 25 seats that a node may have.

ghost use Rattle.std.specs.Prelude.{◌≡◌, ◌≤◌, length};
ghost use Rattle.handle_pool.specs.Issued.{how_many};

/// How many seats are marked.
pub(crate) fn count(marks: &[bool]) -> u32
    requires { length marks.now ≤ 25 }
    ensures { result ≡ how_many (λ mark. mark) marks.now }
{
    let mut marked = 0;
    for mark in marks {
        if *mark {
            marked += 1;
        }
    }
    marked
}
