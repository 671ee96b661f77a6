//! The phases that indexes reach, and what phases take of a script.
ghost use Rattle.std.specs.List.{filter, AllByRecursion};
ghost use Rattle.std.specs.Prelude.{◌≡◌, ◌<◌, ◌≤◌, ◌+◌, ◌*◌, ◌↔◌, ℕ, suc, if◌then◌else◌, ◌==◌, not, Bool, true, false, List, [], ◌∷◌, ◌++◌, Some, length, take, count_by, slice_get, nat_lt};
ghost use Rattle.run_laws.specs.Phases.{is_split, reach, first_of, quota};
ghost use Rattle.run_laws.specs.Turns.{numbered, given, reaching, commits_in, turn, turns, waiting};

/// The indexes that reach a phase or a later one are those from its first one on: a later request
/// of a script reaches no earlier phase.
pub fn phases_reached()
    ensures from_its_first { (joined split phase index : ℕ) → 0 < joined + split →
        (phase ≤ reach joined split index) ↔ (first_of joined split phase ≤ index) }
    ensures rises { (joined split earlier later : ℕ) → 0 < joined + split → earlier ≤ later →
        reach joined split earlier ≤ reach joined split later }
    ensures at_most { (joined split index : ℕ) → 0 < joined + split →
        reach joined split index ≤ 2 * index + 1 }
{}

/// A phase begins where the quota of the one before it ends.
pub fn phases_follow()
    ensures { (joined split phase : ℕ) → 0 < joined + split →
        first_of joined split (suc phase)
        ≡ first_of joined split phase + (if is_split phase then split else joined) }
{}

/// What a phase's quota gives of a script is exactly what reaches the phase: as many requests as
/// the quota says, one after the other from the phase's first index on.
pub fn quotas_give<R>()
    ensures reaching { (joined split phase : ℕ) (script : List R) → 0 < joined + split →
        given joined split phase script ≡ reaching (reach joined split) phase script }
    ensures count { (joined split phase : ℕ) (script : List R) →
        length (given joined split phase script) ≡ quota joined split phase (length script) }
    ensures next { (joined split phase k : ℕ) (script : List R) (request : R) →
        k < quota joined split phase (length script) →
        slice_get script (first_of joined split phase + k) ≡ Some request →
        take (k + 1) (given joined split phase script)
        ≡ take k (given joined split phase script)
        ++ (first_of joined split phase + k, request) ∷ [] }
{}

/// A split phase takes what reaches it but for what it puts off, which waits for the next phase. A
/// joined phase takes what waits and then what reaches it, and leaves nothing waiting.
pub fn phases_take<R>()
    ensures split { (reach : ℕ → ℕ) (puts_off : ℕ → R → Bool) (phase : ℕ) (script : List R) →
        is_split phase ≡ true →
        turn (commits_in reach puts_off) phase script
        ≡ filter (λ call. not (puts_off phase call.1)) (reaching reach phase script) }
    ensures put_off { (reach : ℕ → ℕ) (puts_off : ℕ → R → Bool) (phase : ℕ) (script : List R) →
        is_split phase ≡ true →
        waiting reach (commits_in reach puts_off) (suc phase) script
        ≡ filter (λ call. puts_off phase call.1) (reaching reach phase script) }
    ensures joined { (reach : ℕ → ℕ) (puts_off : ℕ → R → Bool) (phase : ℕ) (script : List R) →
        ((k l : ℕ) → k ≤ l → reach k ≤ reach l) → is_split phase ≡ false →
        turn (commits_in reach puts_off) phase script
        ≡ waiting reach (commits_in reach puts_off) phase script ++ reaching reach phase script }
    ensures none_waits { (reach : ℕ → ℕ) (puts_off : ℕ → R → Bool) (phase : ℕ) (script : List R) →
        is_split phase ≡ false →
        waiting reach (commits_in reach puts_off) (suc phase) script ≡ [] }
{}

/// If each call of a script commits in one of the first phases, the turns in these have each index
/// of the script once, with its request.
pub fn turns_are_whole<R>()
    ensures once { (commit : ℕ × R → ℕ) (phases index : ℕ) (script : List R) →
        AllByRecursion (λ call. commit call < phases) (numbered 0 script) →
        count_by (λ call. call.0 == index) (turns commit phases script)
        ≡ (if nat_lt index (length script) then 1 else 0) }
    ensures requests { (commit : ℕ × R → ℕ) (phases : ℕ) (script : List R) →
        AllByRecursion (λ call. slice_get script call.0 ≡ Some call.1)
        (turns commit phases script) }
{}
