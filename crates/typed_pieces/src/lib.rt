//! Work of your own on a node's workers: pieces of a type of yours, each of which gives a result of a type of yours.
//!
//! [`map_pieces`] calls a function with each of some items, and [`run_pieces`] runs pieces; both give the results. [`with_pieces`] has a client
//! start them, with priorities, queues and resources. [`run_split`] runs a piece that may split into further pieces, and gives its result.
#![tactic(auto)]

pub mod client;
pub mod context;
pub mod level;
pub mod map;
pub mod node;
pub mod piece;
pub mod pieces;
pub mod refusal;
pub mod run;
pub mod shared;
pub mod split;
pub mod split_failure;
pub mod split_run;
pub mod table;
pub mod unfinished;
pub mod worked;
pub mod workers;

pub use client::PieceClient;
pub use context::TaskContext;
pub use map::map_pieces;
pub use node::{AllWorked, Worked, with_pieces, with_pieces_callers};
pub use piece::Piece;
pub use pieces::{Pieces, args_of};
pub use refusal::{PieceCall, PieceRefusal, Refusal};
pub use run::run_pieces;
pub use split::{Outcome, Split};
pub use split_failure::SplitFailure;
pub use split_run::{LevelRun, SplitRun, run_split, run_split_within};
pub use table::Handed;
pub use unfinished::Unfinished;
