//! What a connection speaks to: a campaign that is told requests.
ghost use Rattle.std.specs.Prelude.{IsTrue};
ghost use Rattle.rulebook.specs.Histories.Legal.{is_well_addressed};
ghost use Rattle.rulebook.specs.declared.answer.Answer.{Answer};
ghost use Rattle.rulebook.specs.declared.answer.Answer.TheVariants as answers;
ghost use Rattle.rulebook.specs.declared.ask.Addressed.{Addressed};
ghost use Rattle.rulebook.specs.declared.reply.Reply.{Reply};
ghost use Rattle.campaign_server.specs.Conversations.Stories.{IsByRules};

use rulebook::{Addressed, Answer};

/// A campaign that is told requests and answers them.
pub trait Teller {
    /// One request: the state before, the request, its answer and the state after.
    ghost tells: { Self → Addressed → Answer → Self → Type 0 };

    fn tell(&mut self, asked: Addressed) -> Answer
        requires { IsTrue (is_well_addressed asked.who asked.number asked.ask asked.moment) }
        ensures { tells self.old asked result self.new };

    /// A reply is the rules'.
    ghost by_rules: { (old : Self) (asked : Addressed) (reply : Reply) (new : Self)
        → tells old asked (answers.Reply reply) new → IsByRules asked reply };
}
