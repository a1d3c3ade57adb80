//! The law of renamed handles, that of counts, and that of the first illegal entry. The functions do nothing: their contracts are the laws.

ghost use Rattle.mtapi_renaming.specs.Laws.{StepsRename, AnswersDecide, CreatesRename, LivesAlike, StartsRename};
ghost use Rattle.mtapi_renaming.specs.Counts.{FreshIsNext, FullIsLive, TermsStay, CreatesMakeOne, OthersMakeNone};
ghost use Rattle.mtapi_renaming.specs.Refusals.{RefusalsTell, RefusalsStay, RefusalsArePlain, RefusalsRename, PicksTake};
ghost use Rattle.mtapi_renaming.specs.Lasts.{FullIsTold, RoomIsKept, CreatesMakeLast, OthersKeepLasts};
ghost use Rattle.mtapi_renaming.specs.Gone.{GoneAreMade, GoneStayGone, EndsAreGone};
ghost use Rattle.mtapi_renaming.specs.Verdicts.{ListsAreJudged};
ghost use Rattle.mtapi_renaming.specs.Worked.{WorkedVerdicts, WorkedRenaming, WorkedRefusals, WorkedLasts};

/// A node follows another one, whose handles and limits are its own: an op that makes nothing is answered by one exactly as by the
/// other, but for the handles; an op that makes an object is refused by both for the same reasons before the limit, and what it makes
/// has a handle of each node's own. Then the state of one is that of the other with every handle renamed. Both have
/// the same live objects, but for their handles, and so both start.
#[tactic(auto, using(crate::proofs::Steps::create_renames, crate::proofs::Steps::answers_decide))]
pub fn law_renaming()
    ensures answered { StepsRename }
    ensures decided { AnswersDecide }
    ensures created { CreatesRename }
    ensures live { LivesAlike }
    ensures opening { StartsRename }
{}

/// Whether a handle may be given to a new object is told by how many objects were made in its slot, after any entries; and while fewer
/// objects of a kind were made than a slot has generations, whether there is room is told by how many are live. An op that answers the
/// handle of a new object makes just that one, and an op that makes nothing leaves these counts. No entry changes the terms.
#[tactic(auto, using(crate::proofs::CountMoves::fresh_next, crate::proofs::CountMoves::full_live, crate::proofs::CountMoves::others_make_none))]
pub fn law_counts()
    ensures fresh { FreshIsNext }
    ensures full { FullIsLive }
    ensures terms { TermsStay }
    ensures created { CreatesMakeOne }
    ensures others { OthersMakeNone }
{}

/// What an op that makes an object may answer is told by why it is refused, whether there is room or not: that refusal alone, and where
/// there is none the limit or any handle that may be given. No refusal is a handle, and where it answers no handle it changes nothing.
/// Two nodes that differ in their handles and limits alone refuse it alike. And a worker that may take some task may be told nothing
/// else.
#[tactic(auto, using(crate::proofs::Refusals::refusals_tell, crate::proofs::Refusals::refusals_plain, crate::proofs::Refusals::refusals_rename))]
pub fn law_refusals()
    ensures told { RefusalsTell }
    ensures stay { RefusalsStay }
    ensures plain { RefusalsArePlain }
    ensures renamed { RefusalsRename }
    ensures picks { PicksTake }
{}

/// Whether a kind has room is told by how many objects of it are live, and by its handles of the last generation: as many of its slots
/// have retired as there are such handles that aren't live. Both together are never more than the kind may have. A create adds its
/// handle where that is of the last generation, and an op that makes nothing leaves them.
#[tactic(auto, using(crate::proofs::LastMoves::full_told, crate::proofs::LastMoves::others_keep_lasts, crate::proofs::RoomMoves::room_kept))]
pub fn law_lasts()
    ensures full { FullIsTold }
    ensures kept { RoomIsKept }
    ensures created { CreatesMakeLast }
    ensures others { OthersKeepLasts }
{}

/// Those that are live and those of the last generation that aren't were all made, and are no fewer than the handles of the last
/// generation. After an entry at least as many are gone as before it, of the last generation and of the others; and one more where it
/// ends an object.
#[tactic(auto, using(crate::proofs::GoneMoves::gone_made, crate::proofs::GoneMoves::gone_stay, crate::proofs::GoneMoves::ends_gone))]
pub fn law_gone()
    ensures made { GoneAreMade }
    ensures stay { GoneStayGone }
    ensures ends { EndsAreGone }
{}

/// Whether a list of entries is legal computes: it is exactly where no entry is the first that may not come next in its turn. Where
/// one is, its number, from 1, is the least such that so many first entries aren't legal.
pub fn law_verdicts()
    ensures { ListsAreJudged }
{}

/// Lists that stop being legal at an entry, two nodes that execute the same under other handles and limits, creates where there is no
/// room, and what last handles tell.
pub fn worked_renaming()
    ensures verdicts { WorkedVerdicts }
    ensures renaming { WorkedRenaming }
    ensures refusals { WorkedRefusals }
    ensures lasts { WorkedLasts }
{}
