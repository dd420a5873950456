//! What a hall holds: a value with a history, on which one worker at a time acts.
ghost use Rattle.std.specs.Prelude.{◌≡◌, ℕ, ◌≤◌, ◌^◌, length};
ghost use Rattle.hall.specs.declared.stories.Story.{Story};
ghost use Rattle.hall.specs.Stories.{Grows};

/// A value that keeps a list of entries.
pub trait Storied {
    type Ask;

    type Entry;

    type Answer;

    // its state
    ghost story: { Self → Story Self.Entry };

    // the condition on asks
    ghost fits: { Self.Ask → Type 0 };

    // what an answer says of the states before and after
    ghost tells: { Story Self.Entry → Self.Ask → Self.Answer → Story Self.Entry → Type 0 };

    /// The number of entries.
    fn length(&self) -> u64
        ensures count { result ≡ length (story self.now).list }
        ensures bound { result ≤ 2 ^ 63 };

    /// Answers, and adds one entry at most.
    fn act(&mut self, ask: Self::Ask) -> Self::Answer
        requires { fits ask }
        ensures grows { Grows (story self.old) (story self.new) }
        ensures tells { tells (story self.old) ask result (story self.new) };
}
