//! What holds of the order in which mistakes are shown. The function does nothing: its contract is the law.

ghost use Rattle.std.specs.Prelude.{List};
ghost use Rattle.workload_mistakes.specs.Page.{MistakesInOrder, in_order};
ghost use Rattle.workload_mistakes.specs.declared.mistakes.Mistake.{Mistake};

/// Mistakes in order are sorted by their lines and columns, and are the same mistakes.
pub fn law_in_order()
    ensures { (told : List Mistake) → MistakesInOrder told (in_order told) }
{}
