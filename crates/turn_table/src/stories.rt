ghost use Rattle.std.specs.Prelude.{◌≡◌, ℕ, List, Bool, length, MatchBool};
ghost use Rattle.turn_table.specs.Lists.{Adds};

/// A value with a list of entries that only grows.
pub trait Story {
    type Item;

    /// What never changes.
    type Origin;

    ghost origin: { Self → Self.Origin };

    /// The entries so far, the oldest first.
    ghost entries: { Self → List Self.Item };

    /// The number that an entry names.
    ghost number: { Self.Item → ℕ };

    /// The length of the list.
    fn count(&self) -> u64
        ensures { result ≡ length (entries self.now) };
}

/// What is done to a story in one turn.
pub trait Act<T: Story> {
    type Reply;

    /// What the act is to do: of the act before and after, the origin, the entries before and
    /// after, and the reply.
    ghost relation: { Self → Self → T.Origin → List T.Item → List T.Item → Self.Reply → Type 0 };

    /// Whether a reply tells of a new entry.
    ghost adds: { Self.Reply → Bool };

    /// Does the act in the name of `number`. The list stays, or has one entry more, which names
    /// `number`.
    fn run(&mut self, story: &mut T, number: u32) -> Self::Reply
        ensures origin { T.origin story.new ≡ T.origin story.old }
        ensures list { MatchBool (adds result)
            (Adds T.number number (T.entries story.old) (T.entries story.new))
            (T.entries story.new ≡ T.entries story.old) }
        ensures relation { relation self.old self.new (T.origin story.old)
            (T.entries story.old) (T.entries story.new) result };
}
