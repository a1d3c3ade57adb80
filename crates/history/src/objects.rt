//! The objects whose calls make one history.
ghost use Rattle.std.specs.Prelude.{◌≡◌, ℕ, ◌+◌, ◌^◌, ◌<◌, List, [], ◌∷◌, ◌++◌, length};
ghost use Rattle.history.specs.declared.entries.Entry.{Entry};
ghost use Rattle.history.specs.Histories.{entry};

/// An object that seats call one after another. It has terms that no call changes, and it stands for lists of entries.
pub trait Object: Drop {
    /// What a seat asks.
    type Op: Drop;

    /// What the object answers.
    type Reply: Drop;

    /// Plain data that is fixed when the object is made, such as its settings and the number of its seats.
    type Terms: Drop;

    // Some terms, so that a seat always has some to show.
    ghost blank: { Self.Terms };

    // The object's terms.
    ghost terms: { Self → Self.Terms };

    // How many seats these terms give.
    ghost seat_count: { Self.Terms → ℕ };

    // This list may be a history of an object with these terms.
    ghost legal: { Self.Terms → List (Entry Self.Op Self.Reply) → Type 0 };

    // The object stands for this list: it is as these calls leave it.
    ghost stands: { Self → List (Entry Self.Op Self.Reply) → Type 0 };

    /// The number of seats, which are numbered from 0. It never changes.
    fn seats(&self) -> u32
        ensures count { result ≡ seat_count (terms self.now) };

    /// A copy of the object's terms, made without memory from an allocator.
    fn told_terms(&self) -> Self::Terms
        ensures terms { result ≡ terms self.now };

    /// One call by the seat `who`. It refuses nothing: what an object refuses, it says in its reply.
    fn apply(&mut self, who: u32, op: Self::Op) -> Self::Reply
        requires seat { who < seat_count (terms self.old) }
        requires room { (l : List (Entry Self.Op Self.Reply)) × stands self.old l × (length l < 2 ^ 62) }
        ensures terms { terms self.new ≡ terms self.old }
        ensures stands { (l : List (Entry Self.Op Self.Reply)) → stands self.old l
            → stands self.new (l ++ entry who op result ∷ []) };

    // Every prefix of a legal list is legal.
    ghost prefix_legal: { (t : Self.Terms) (l more : List (Entry Self.Op Self.Reply)) → legal t (l ++ more) → legal t l };

    // An object stands for legal lists alone.
    ghost stands_legal: { (x : Self) (l : List (Entry Self.Op Self.Reply)) → stands x l → legal (terms x) l };
}
