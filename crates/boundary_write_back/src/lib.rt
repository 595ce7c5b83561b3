// A step's outcome, put back into the lent record and the slice of the reply.
#![tactic(auto)]

ghost use Rattle.std.specs.Prelude.{List, ◌≡◌, ℕ};
ghost use Rattle.boundary.specs.Crossing.{crossed, is_refusal};
ghost use Rattle.session.specs.State as S;
ghost use Rattle.boundary_write_back.specs.Back.{back_into};

use boundary_reply::tell;
use record_store::store;
use session::{Answer, Reply, Stepped};

fn is_refusal(reply: Reply) -> bool
    ensures { result ≡ is_refusal reply }
{
    matches!(reply, Reply::Told(Answer::Refused(_) | Answer::Missing(_)))
}

// The session into the record, the reply into out; a refusal leaves the record as it was, and so does a record of another length.
#[tactic(auto, unfolding(crate::specs::Back::back_into))]
pub fn give_back(stepped: Stepped, rec: &mut [u8], out: &mut [u8]) -> u32
    ensures { (rx msg : List ℕ) → crossed rec.new rx msg out.new result ≡ back_into rec.old out.old (S.out stepped rx msg) }
{
    if !is_refusal(stepped.reply) {
        store(stepped.session, rec);
    }
    tell(stepped.reply, out)
}
