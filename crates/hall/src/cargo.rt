//! What a hall carries behind its locks.
ghost use Rattle.std.specs.Prelude.{◌≡◌, ◌≢◌, ◌+◌, ◌<◌, ℕ, List, [], ◌∷◌, ◌++◌, Option, Some, None, length, slice_index, slice_index_or, slice_set};
ghost use mathlib.Core.Option.{some};
ghost use lib.ListN.{get_elem?};
ghost use Rattle.hall.specs.Cargo.{CargoSeat, Compatible, Lowers, upgrade_mode, exclusive_mode, changed_seat, split_seat, joined_seat, spent_seat};
ghost use Rattle.lock_model.specs.declared.model.Mode.{Mode};

/// What a hall carries: a rule over its words and over what each pass knows of them, with the laws by which the steps
/// of the hall keep it.
///
/// A fact among the members is a proof that each `impl` gives. The words are the cargo's own, counted from 0; a
/// `CargoSeat` is what the rule sees of one pass: its number, its quota, the mode that it holds at each lock and its
/// part.
pub trait CargoRule {
    /// What a pass knows of the cargo. It is plain data.
    type Part;

    /// How many words the cargo has.
    ghost word_count: { Self → ℕ };
    /// Which lock guards a word, if any.
    ghost guard_of: { Self → ℕ → Option ℕ };
    /// The rule, over the cargo words and what each pass has.
    ghost holds: { Self → List ℕ → List (CargoSeat Self.Part) → Type 0 };
    /// With which quota a hall may be made.
    ghost admits: { Self → ℕ → Type 0 };
    /// The part of the first pass, of the quota.
    ghost opening: { Self → ℕ → Self.Part };
    /// The part of a pass that was taken in.
    ghost spent: { Self.Part };
    /// What a pass knows after it gained a mode at a lock where it had none: of the lock, the cargo words of that
    /// moment, the part before and the part after.
    ghost gains: { ℕ → List ℕ → Self.Part → Self.Part → Type 0 };
    /// The part after the mode at a lock was lowered or lost: of the lock, what is left of the mode, and the part before.
    ghost lowered: { ℕ → Option Mode → Self.Part → Self.Part };
    /// What the part must say of a lock before an exclusive hold of it is lowered or lost.
    ghost settled: { ℕ → Self.Part → Type 0 };
    /// What a pass must be before it is taken in or closes the hall, besides being away from each lock.
    ghost rested: { Self.Part → Type 0 };
    /// The part of a pass after it was split.
    ghost kept: { Self.Part → Self.Part };
    /// The part of the new pass.
    ghost split_off: { Self.Part → Self.Part };
    /// The part of a pass after it took another in, of the two parts.
    ghost joined: { Self.Part → Self.Part → Self.Part };

    /// At the start all words are 0, and one pass has no mode and the whole quota.
    ghost starts: { (c : Self) (ws : List ℕ) (q : CargoSeat Self.Part) (quota : ℕ) → length ws ≡ word_count c → ((k : ℕ) → slice_index ws k ≡ 0) → ((lock : ℕ) → slice_index_or q.modes lock None ≡ None) → admits c quota → q.quota ≡ quota → q.part ≡ opening c quota → holds c ws (q ∷ []) };
    /// Gaining a mode that goes together with those of the others keeps the rule, with some part that `gains` tells of.
    ghost gain_keeps: { (c : Self) (ws : List ℕ) (qs : List (CargoSeat Self.Part)) (id lock : ℕ) (m : Option Mode) (q : CargoSeat Self.Part) → holds c ws qs → get_elem? qs id ≡ some q → slice_index_or q.modes lock None ≡ None → m ≢ None → Compatible qs id lock m → (part : Self.Part) × gains lock ws q.part part × holds c ws (slice_set qs id (changed_seat q lock m part)) };
    /// Raising upgrade to exclusive keeps the rule, with the part as it was.
    ghost raise_keeps: { (c : Self) (ws : List ℕ) (qs : List (CargoSeat Self.Part)) (id lock : ℕ) (q : CargoSeat Self.Part) → holds c ws qs → get_elem? qs id ≡ some q → slice_index_or q.modes lock None ≡ upgrade_mode → Compatible qs id lock exclusive_mode → holds c ws (slice_set qs id (changed_seat q lock exclusive_mode q.part)) };
    /// Lowering or losing a mode keeps the rule, from exclusive where the part is settled.
    ghost lower_keeps: { (c : Self) (ws : List ℕ) (qs : List (CargoSeat Self.Part)) (id lock : ℕ) (m : Option Mode) (q : CargoSeat Self.Part) → holds c ws qs → get_elem? qs id ≡ some q → Lowers (slice_index_or q.modes lock None) m → (slice_index_or q.modes lock None ≡ exclusive_mode → settled lock q.part) → holds c ws (slice_set qs id (changed_seat q lock m (lowered lock m q.part))) };
    /// A split, which divides the quota and gives the new pass no mode, keeps the rule.
    ghost split_keeps: { (c : Self) (ws : List ℕ) (qs : List (CargoSeat Self.Part)) (id number left right : ℕ) (modes : List (Option Mode)) (q : CargoSeat Self.Part) → holds c ws qs → get_elem? qs id ≡ some q → q.quota ≡ left + right → ((lock : ℕ) → slice_index_or modes lock None ≡ None) → holds c ws (slice_set qs id (split_seat q left (kept q.part)) ++ record { number = number; quota = right; modes = modes; part = split_off q.part } ∷ []) };
    /// A join of a pass that has no mode and is at rest, which adds the quotas, keeps the rule.
    ghost join_keeps: { (c : Self) (ws : List ℕ) (qs : List (CargoSeat Self.Part)) (id other : ℕ) (q r : CargoSeat Self.Part) → holds c ws qs → get_elem? qs id ≡ some q → get_elem? qs other ≡ some r → other ≢ id → ((lock : ℕ) → slice_index_or r.modes lock None ≡ None) → rested r.part → holds c ws (slice_set (slice_set qs id (joined_seat q r (joined q.part r.part))) other (spent_seat spent)) };
    /// What was learnt of a lock settles it.
    ghost gains_settles: { (lock : ℕ) (ws : List ℕ) (p q : Self.Part) → gains lock ws p q → settled lock q };
    /// It leaves the other locks settled.
    ghost gains_leave: { (lock other : ℕ) (ws : List ℕ) (p q : Self.Part) → other ≢ lock → gains lock ws p q → settled other p → settled other q };
    /// So does lowering or losing a mode.
    ghost lowered_leaves: { (lock other : ℕ) (m : Option Mode) (p : Self.Part) → other ≢ lock → settled other p → settled other (lowered lock m p) };
}

/// What a hall carries, as its code sees it.
pub trait Cargo: CargoRule + Sync + Drop {
    /// The number of cargo words.
    fn words(&self) -> u64
        ensures { result ≡ Self.word_count self.now };

    /// The lock that guards a word, or none.
    fn lock_of(&self, place: u64) -> Option<u64>
        ensures { result ≡ Self.guard_of self.now place };
}
