//! The law of the two layouts. The function does nothing: its contract is the law.

ghost use Rattle.mtapi_layouts.specs.Turns.{Turns, OpeningTurns, HistoriesTurn, HistoriesAreNamed, NamedIsOuter, PendsAlike};

/// A node that has its handles in layout one, and turns those of its ops inwards and those of its replies outwards, answers as layout
/// two allows, step by step and over whole histories: its state is that of layout two with every handle turned. The slots in the
/// handles of new objects are below 2^24.
pub fn law_layouts()
    ensures step { Turns }
    ensures start { OpeningTurns }
    ensures history { HistoriesTurn }
    ensures named { HistoriesAreNamed }
    ensures back { NamedIsOuter }
    ensures pending { PendsAlike }
{}
