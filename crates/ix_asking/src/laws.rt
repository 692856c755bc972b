//! What holds of all that asks for calls, here where numbers come of it. These functions do nothing: each states a law, which is
//! proved, and whose lemma in proofs/Lines.antt holds whatever comes of the calls.

ghost use Rattle.std.specs.Prelude.{◌≡◌, ◌++◌, ℕ, List, Some};
ghost use Rattle.ix_model.specs.history.Made.{Made};
ghost use Rattle.ix_asking.specs.{Asking.{Answered, Asked, Asking, Came, Due, followed, next}, Lines.{Calls, calls_then, events_of, with_entries_first}};
ghost use Rattle.ix_asking.specs.Runs.{answers_of, AsAsked, entry_of};

/// Where the calls that were made are those that a line asks for, and this came of it, they are the entries of a lane's definition
/// for that line, and what comes after it follows them.
pub fn lines_that_are_done()
    ensures { (seat : ℕ) (p : Asking ℕ) (made : List Made) (r : ℕ) (later : List Answered) (after : ℕ → List Answered → Calls)
        → AsAsked seat p made → next p (answers_of made) ≡ Came r
        → calls_then seat p (answers_of made ++ later) after ≡ with_entries_first (events_of made) (after r later) }
{}

/// Where a further call is asked for, a lane's definition ends with it.
pub fn lines_that_are_cut()
    ensures { (seat : ℕ) (p : Asking ℕ) (made : List Made) (a : Asked) (after : ℕ → List Answered → Calls)
        → AsAsked seat p made → next p (answers_of made) ≡ Due a
        → calls_then seat p (answers_of made) after ≡ record { entries = events_of made; next = Some (entry_of seat a) } }
{}

/// What follows a line, by what came of it, comes after it in a lane's definition.
pub fn lines_that_follow()
    ensures { (seat : ℕ) (p : Asking ℕ) (more : ℕ → Asking ℕ) (answers : List Answered) (after : ℕ → List Answered → Calls)
        → calls_then seat (followed p more) answers after ≡ calls_then seat p answers (λ r rest. calls_then seat (more r) rest after) }
{}
