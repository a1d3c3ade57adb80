//! Why a call of a client was refused.

use mtapi_values::{MrapiStatus, MtapiStatus};
use std::fmt::{self, Display, Formatter, Write};
use thiserror::Error;

/// A call of `Pieces`.
#[derive(Clone, Copy, Debug, Drop, PartialEq, Eq)]
pub enum PieceCall {
    /// `action`.
    Action,
    /// `start`.
    Start,
    /// `enqueue`.
    Enqueue,
    /// `cancel`.
    Cancel,
    /// `wait_any`.
    WaitAny,
}

impl PieceCall {
    /// Its name.
    pub fn name(self) -> &'static str {
        match self {
            PieceCall::Action => "action",
            PieceCall::Start => "start",
            PieceCall::Enqueue => "enqueue",
            PieceCall::Cancel => "cancel",
            PieceCall::WaitAny => "wait_any",
        }
    }
}

/// The status that refused a call of `Pieces`, with the call, and with the place of its piece if it is for one.
#[derive(Clone, Copy, Debug, Drop, PartialEq, Eq)]
pub struct PieceRefusal {
    pub call: PieceCall,
    pub place: Option<u32>,
    pub status: MtapiStatus,
}

impl Display for PieceRefusal {
    fn fmt<W: Write>(&self, f: &mut Formatter<W>) -> fmt::Result {
        let call = self.call.name();
        let status = self.status;
        match self.place {
            Some(place) => write!(f, "{call} of piece {place}: {status}"),
            None => write!(f, "{call}: {status}"),
        }
    }
}

/// The status that refused a call, so that one function may have a `?` at calls of pieces, of MTAPI and of MRAPI.
#[derive(Clone, Copy, Debug, Drop, Error)]
pub enum Refusal {
    /// A call of MTAPI.
    #[error("refused with {0}")]
    Mtapi(MtapiStatus),
    /// A call of MRAPI.
    #[error("refused with {0}")]
    Mrapi(MrapiStatus),
    /// A call of `Pieces`.
    #[error("{0}")]
    Piece(PieceRefusal),
}

impl From<PieceRefusal> for Refusal {
    ghost use Rattle.std.specs.Prelude.{◌≡◌};
    ghost use Rattle.typed_pieces.specs.declared.refusal.Refusal.TheVariants.{Piece};

    ghost from_gives = { λ refused refusal. refusal ≡ Piece refused };

    fn from(refused: PieceRefusal) -> Refusal {
        Refusal::Piece(refused)
    }
}

impl From<PieceRefusal> for MtapiStatus {
    ghost use Rattle.std.specs.Prelude.{◌≡◌};

    ghost from_gives = { λ refused status. status ≡ refused.status };

    fn from(refused: PieceRefusal) -> MtapiStatus {
        refused.status
    }
}

impl From<MtapiStatus> for Refusal {
    ghost use Rattle.std.specs.Prelude.{◌≡◌};
    ghost use Rattle.typed_pieces.specs.declared.refusal.Refusal.TheVariants.{Mtapi};

    ghost from_gives = { λ status refusal. refusal ≡ Mtapi status };

    fn from(status: MtapiStatus) -> Refusal {
        Refusal::Mtapi(status)
    }
}

impl From<MrapiStatus> for Refusal {
    ghost use Rattle.std.specs.Prelude.{◌≡◌};
    ghost use Rattle.typed_pieces.specs.declared.refusal.Refusal.TheVariants.{Mrapi};

    ghost from_gives = { λ status refusal. refusal ≡ Mrapi status };

    fn from(status: MrapiStatus) -> Refusal {
        Refusal::Mrapi(status)
    }
}
