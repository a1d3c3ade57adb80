//! The laws by which a follower judges.

ghost use Rattle.journal_check.specs.Laws.{Laws};

use mtapi_renaming::{law_counts, law_gone, law_lasts, law_refusals, law_renaming};

/// All the laws in one place. It does nothing.
pub(crate) fn laws()
    ensures { Laws }
{
    law_renaming();
    law_counts();
    law_refusals();
    law_lasts();
    law_gone();
}
