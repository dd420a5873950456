//! What callers may rely on of a talk, as laws.
ghost use Rattle.std.specs.Prelude.{ℕ, List};
ghost use Rattle.routes.specs.declared.keys.KeyRow.{KeyRow};
ghost use Rattle.rulebook.specs.Campaign.{History};
ghost use Rattle.campaign_server.specs.Conversations.Chains.{Said};
ghost use Rattle.campaign_server.specs.Conversations.Talks.{TalkLaws};

/// A talk stays one over a longer list of entries, and from an earlier start.
pub fn talks_go_on()
    ensures { (keys : List KeyRow) (n c : ℕ) (S : History) (last : ℕ) (places : List ℕ)
        (said : List Said) → TalkLaws keys n c S last places said }
{}
