//! What is done of scripts before a phase, and after it; what a run does to the book that it starts
//! from, and what it gives at its end.
ghost use Rattle.std.specs.Prelude.{◌≡◌, ◌<◌, ◌+◌, ◌-◌, ◌++◌, ℕ, suc, true, false, List, [], ◌∷◌, ◌≤◌, ◌*◌, length};
ghost use Rattle.run_laws.specs.{Answers.{IsAnswer}, Books.{HasReplayed, ReplaysOn}};
ghost use Rattle.run_laws.specs.Phases.{is_split};
ghost use Rattle.run_laws.specs.Run.{HasRun, IsPhasePerformed, HasLeft, AreChosen, calls_given, IsDone};
ghost use Rattle.run_laws.specs.Serving.{AreNumbered, segment_of, phase_reached, Serves, script_of};
ghost use Rattle.run_laws.specs.Turns.{reaching};
ghost use Rattle.auction_rows.specs.{Choosing.{choose}, History.{IsBook, ReplaysFrom, book_after}};
ghost use Rattle.auction_rows.specs.{Phases.{IsNumbered}, declared.limits.Policy.{Policy}};
ghost use Rattle.auction_rows.specs.declared.requests.{Object.{Object}, Request.{Request}};
ghost use Rattle.auction_rows.specs.declared.{rows.Entry.{Entry}, values.Opening.{Opening}};
ghost use Rattle.auction_rows.specs.Book.{Book as Rows};

/// Before the first phase nothing is done.
pub fn run_begins()
    ensures run { (policy : Policy) (scripts : List (List Request)) →
        HasRun policy scripts 0 [] [] (λ worker. []) }
    ensures chosen { (policy : Policy) → AreChosen policy [] [] }
    ensures numbers { (opening : Opening) (policy : Policy) → AreNumbered opening policy [] [] }
{}

/// What a worker is given in a phase is exactly what of its script reaches the phase.
pub fn quota_gives()
    ensures { (policy : Policy) (phase : ℕ) (script : List Request) →
        0 < policy.joined_quota + policy.split_quota →
        calls_given policy phase script ≡ reaching (phase_reached policy) phase script }
{}

/// A closed phase takes a run one phase on, if a worker had something left.
pub fn phase_runs()
    ensures { (policy : Policy) (scripts : List (List Request)) (phase worker : ℕ)
        (hot : List (List Object)) (hot_now : List Object) (history segment : List Entry)
        (stashes after : ℕ → List (ℕ × Request)) →
        0 < policy.joined_quota + policy.split_quota →
        HasRun policy scripts phase hot history stashes →
        HasLeft policy scripts phase stashes worker →
        IsPhasePerformed policy scripts phase hot_now stashes after segment →
        HasRun policy scripts (suc phase) (hot ++ hot_now ∷ []) (history ++ segment) after }
{}

/// After a phase whose hot set is the one chosen from the entries before it, the hot sets are the
/// chosen ones still; if the phase's entries are numbered, each phase's still are; and they are the
/// last of the history.
pub fn phase_closes()
    ensures chosen { (policy : Policy) (scripts : List (List Request)) (phase : ℕ)
        (hot : List (List Object)) (hot_now : List Object) (history segment : List Entry)
        (stashes after : ℕ → List (ℕ × Request)) →
        HasRun policy scripts phase hot history stashes →
        IsPhasePerformed policy scripts phase hot_now stashes after segment →
        AreChosen policy hot history → (is_split phase ≡ false → hot_now ≡ []) →
        (is_split phase ≡ true → hot_now
        ≡ choose (segment_of (phase - 1) history) policy.threshold policy.hot_max) →
        AreChosen policy (hot ++ hot_now ∷ []) (history ++ segment) }
    ensures numbers { (opening : Opening) (policy : Policy) (scripts : List (List Request))
        (phase : ℕ) (hot : List (List Object)) (hot_now : List Object)
        (history segment : List Entry) (stashes after : ℕ → List (ℕ × Request)) →
        HasRun policy scripts phase hot history stashes →
        IsPhasePerformed policy scripts phase hot_now stashes after segment →
        AreNumbered opening policy hot history → IsNumbered opening policy.shards hot_now segment →
        AreNumbered opening policy (hot ++ hot_now ∷ []) (history ++ segment) }
    ensures last { (policy : Policy) (scripts : List (List Request)) (phase : ℕ)
        (hot : List (List Object)) (hot_now : List Object) (history segment : List Entry)
        (stashes after : ℕ → List (ℕ × Request)) →
        HasRun policy scripts phase hot history stashes →
        IsPhasePerformed policy scripts phase hot_now stashes after segment →
        segment_of phase (history ++ segment) ≡ segment }
{}

/// The books for which the states before and after a phase stand.
pub trait PhaseBooks {
    /// The state before stands for a book.
    ghost Before: { Rows → Type 0 };

    /// The state after stands for a book.
    ghost After: { Rows → Type 0 };
}

/// A run that has done nothing has replayed, from each book for which its state stands.
pub fn run_starts<P: PhaseBooks>()
    ensures { (opening : Opening) (start : Rows) →
        P.Before start → HasReplayed opening start [] P.Before }
{}

/// A closed phase that replays from the book of the history takes the replay one phase on. What a
/// history leaves of a book is a book.
pub fn phase_replays<P: PhaseBooks>()
    ensures replayed { (opening : Opening) (start : Rows) (history segment : List Entry) →
        IsBook opening start → HasReplayed opening start history P.Before →
        ReplaysOn opening segment P.Before P.After →
        HasReplayed opening start (history ++ segment) P.After }
    ensures book { (opening : Opening) (start : Rows) (history : List Entry) →
        IsBook opening start → ReplaysFrom opening start history →
        IsBook opening (book_after opening start history) }
{}

/// If nobody has anything left and each phase is numbered, the history serves the scripts.
pub fn run_serves()
    ensures { (opening : Opening) (policy : Policy) (scripts : List (List Request)) (phase : ℕ)
        (hot : List (List Object)) (history : List Entry) (stashes : ℕ → List (ℕ × Request)) →
        0 < policy.joined_quota + policy.split_quota →
        HasRun policy scripts phase hot history stashes →
        AreNumbered opening policy hot history → IsDone policy scripts phase stashes →
        Serves opening policy scripts hot history }
{}

/// A run of short scripts has few phases.
pub fn phases_are_few()
    ensures { (policy : Policy) (scripts : List (List Request)) (phase most : ℕ)
        (hot : List (List Object)) (history : List Entry) (stashes : ℕ → List (ℕ × Request)) →
        0 < policy.joined_quota + policy.split_quota →
        HasRun policy scripts phase hot history stashes →
        ((worker : ℕ) → length (script_of scripts worker) ≤ most) →
        phase ≤ 2 * most + 2 }
{}

/// With one worker a run's answer is one function of its input: any two answers to one script, from
/// one opening, book and policy, have the same history and the same hot sets.
pub fn one_worker_one_answer()
    ensures history { (opening : Opening) (start : Rows) (policy : Policy) (script : List Request)
        (hot other_hot : List (List Object)) (history other : List Entry) →
        IsAnswer opening start policy (script ∷ []) hot history →
        IsAnswer opening start policy (script ∷ []) other_hot other → history ≡ other }
    ensures hot { (opening : Opening) (start : Rows) (policy : Policy) (script : List Request)
        (hot other_hot : List (List Object)) (history other : List Entry) →
        IsAnswer opening start policy (script ∷ []) hot history →
        IsAnswer opening start policy (script ∷ []) other_hot other → hot ≡ other_hot }
{}
