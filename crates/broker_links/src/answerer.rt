// Who answers wants.
ghost use Rattle.std.specs.Prelude.{◌≡◌, None, Some};

use crate::reply::Reply;
use zk_model::Want;

/// Answers a want, once: it is made for one link.
pub trait Answerer {
    ghost use Rattle.std.specs.Prelude.{Option, Result};
    ghost use Rattle.zk_model.specs.declared.messages.Want.{Want};
    ghost use Rattle.broker_links.specs.declared.reply.Reply.{Reply};

    /// Why it does not answer.
    type Fault: Drop;

    /// The want that it was asked for, once it was.
    ghost asked: { Self → Option Want };

    /// What it answered, once it was asked.
    ghost answer: { Self → Option (Result Reply Self.Fault) };

    /// Whether it may be asked for this want.
    ghost may: { Self → Want → Type 0 };

    /// What it becomes where it is asked for this want, and answers so.
    ghost moves: { Self → Want → Result Reply Self.Fault → Self → Type 0 };

    /// Leases units for a want, or says that none are left, or why it does not answer.
    fn reply(&mut self, want: Want) -> Result<Reply, Self::Fault>
        requires once { answer self.old ≡ None }
        requires may { may self.old want }
        ensures told { answer self.new ≡ Some result }
        ensures asked { asked self.new ≡ Some want }
        ensures moves { moves self.old want result self.new };
}
