//! The post as an object whose calls make one history.

use crate::ops::{MsgOp, MsgReply};
use crate::post::{Post, PostTerms};
use history::Object;

impl Object for Post {
    type Op = MsgOp;

    type Reply = MsgReply;

    type Terms = PostTerms;

    ghost use Rattle.mcapi_msg.specs.Legal.{MsgLegal, MsgLegal-prefix};
    ghost use Rattle.mcapi_msg.specs.Stands.{PostStands, post_terms_of, post_seats, some_post_terms};

    ghost blank = { some_post_terms };

    ghost terms = { post_terms_of };

    ghost seat_count = { post_seats };

    ghost legal = { MsgLegal };

    ghost stands = { PostStands };

    ghost prefix_legal = { MsgLegal-prefix };

    ghost stands_legal = { λ x l s. s.legal };

    fn seats(&self) -> u32 {
        self.seats
    }

    fn told_terms(&self) -> PostTerms {
        PostTerms {
            seats: self.seats,
            endpoints: self.boxes.max(),
            limit: self.boxes.limit(),
        }
    }

    fn apply(&mut self, who: u32, op: MsgOp) -> MsgReply {
        self.dispatch(who, op)
    }
}
