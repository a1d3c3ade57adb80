//! The locks that name the parts of pieces.

ghost use Rattle.std.specs.Prelude.{◌≡◌, ℕ, List, [], Some, IfSome, map, slice_get};

use std::alloc::{AllocError, Global};
use std::marker::{Brand, PhantomData};
use std::snapshot::Snapshot;
use std::sync::OnceLock;

/// The locks that name the parts of pieces, as the proofs know them: each is written once, so what it names stays the same for all who know it.
/// A lock knows of its value only what the type says, so they are named by a type.
pub trait Names {
    ghost ids: { List ℕ };
}

impl Names for Brand {
    ghost ids = { [] };
}

/// So many locks, none of which names anything.
pub fn no_names<T: Drop>(
    alloc: Global,
    count: usize,
) -> Result<Vec<OnceLock<Snapshot<T>>>, AllocError> {
    let mut names = Vec::with_capacity(alloc, count)?;
    for _ in 0..count {
        names.push(OnceLock::new())?;
    }
    Ok(names)
}

/// These locks. Their content is a type of its own, so that a thread may be shown to get them.
#[derive(Drop)]
pub struct NameList<'n, L: Names, T: Drop> {
    list: &'n [OnceLock<T>],
    of: PhantomData<L>,
    ghost ids: { L.ids ≡ map (λ name. name.id) list.now },
}

impl<'n, L: Names, T: Drop> NameList<'n, L, T> {
    /// Of these locks.
    pub fn new(list: &'n [OnceLock<T>]) -> NameList<'n, L, T>
        requires { L.ids ≡ map (λ name. name.id) list.now }
    {
        NameList {
            list,
            of: PhantomData,
        }
    }

    /// The same locks.
    pub fn again(&self) -> NameList<'n, L, T> {
        NameList {
            list: self.list,
            of: PhantomData,
        }
    }

    /// How many there are.
    pub fn count(&self) -> usize {
        self.list.len()
    }

    /// The lock of this number, if there is one.
    #[tactic(auto, using(crate::proofs::Kept::named_at))]
    pub fn at(&self, number: usize) -> Option<&'n OnceLock<T>>
        ensures { IfSome result (λ name. slice_get L.ids number ≡ Some name.now.id) }
    {
        self.list.get(number)
    }
}
