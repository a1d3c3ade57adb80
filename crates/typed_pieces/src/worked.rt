//! Worked rows. The functions do nothing: their contracts are the rows.

ghost use Rattle.typed_pieces.specs.Worked.{WorkedPieces};
ghost use Rattle.typed_pieces.specs.WorkedTold.{WorkedTold};

/// What pieces, joins and levels give, and what is wrong in one place.
pub fn worked_pieces()
    ensures { WorkedPieces }
{}

/// The places that ends tell, the starts of pieces, and the answers once the turns are used up.
pub fn worked_told()
    ensures { WorkedTold }
{}
