//! Laws of words that came at times.
ghost use Rattle.std.specs.Prelude.{◌≡◌, ℕ, ◌<◌, ◌++◌, ◌∷◌, List, []};
ghost use Rattle.warp_stores.specs.Dated.{Dated, before, since, last_time, Rises};

/// What is before a time, and then what isn't, is all.
pub fn before_and_since<T>()
    ensures { (words : List (Dated T)) (time : ℕ) → Rises words → before time words ++ since time words ≡ words }
{}

/// Where the words from a time on were cut off, none is from there on.
pub fn nothing_later<T>()
    ensures { (words : List (Dated T)) (time : ℕ) → since time (before time words) ≡ [] }
{}

/// Where a step of one word was appended and the last step is taken off, all is as it was.
pub fn undo_gives_back<T>()
    ensures { (words : List (Dated T)) (time : ℕ) (word : T) → Rises words → last_time words < time
        → before (last_time (words ++ (time, word) ∷ [])) (words ++ (time, word) ∷ []) ≡ words }
{}
