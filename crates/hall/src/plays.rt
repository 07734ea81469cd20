//! What each step tells. These types are for the proofs alone: no value of them is made.
use crate::cargo::CargoRule;
use crate::view::View;
use atomic_table::{Join, Play, Split};
use std::marker::{Brand, PhantomData};

pub struct LoadPlay<C> {
    marker: PhantomData<C>,
}

impl<C: CargoRule> Play<(), View<C::Part>> for LoadPlay<C> {
    ghost use Rattle.hall.specs.Plays.{At, Loads};

    ghost then = { At (Loads C.CargoRule) };
}

pub struct EnterPlay<C> {
    marker: PhantomData<C>,
}

impl<C: CargoRule> Play<(), View<C::Part>> for EnterPlay<C> {
    ghost use Rattle.hall.specs.Plays.{TriedAt, Enters, EnterMisses};

    ghost then = { TriedAt (Enters C.CargoRule) (EnterMisses C.CargoRule) };
}

pub struct LowerPlay<C> {
    marker: PhantomData<C>,
}

impl<C: CargoRule> Play<(), View<C::Part>> for LowerPlay<C> {
    ghost use Rattle.hall.specs.Plays.{At, GivesBack};

    ghost then = { At (GivesBack C.CargoRule) };
}

pub struct AnnouncePlay<C> {
    marker: PhantomData<C>,
}

impl<C: CargoRule> Play<(), View<C::Part>> for AnnouncePlay<C> {
    ghost use Rattle.hall.specs.Plays.{TriedAt, Announces, AnnounceMisses};

    ghost then = { TriedAt (Announces C.CargoRule) (AnnounceMisses C.CargoRule) };
}

pub struct HoldPlay<C> {
    marker: PhantomData<C>,
}

impl<C: CargoRule> Play<(), View<C::Part>> for HoldPlay<C> {
    ghost use Rattle.hall.specs.Plays.{TriedAt, Holding, HoldMisses};

    ghost then = { TriedAt (Holding C.CargoRule) (HoldMisses C.CargoRule) };
}

pub struct RetractPlay<C> {
    marker: PhantomData<C>,
}

impl<C: CargoRule> Play<(), View<C::Part>> for RetractPlay<C> {
    ghost use Rattle.hall.specs.Plays.{At, Retracts};

    ghost then = { At (Retracts C.CargoRule) };
}

pub struct ReleasePlay<C> {
    marker: PhantomData<C>,
}

impl<C: CargoRule> Play<(), View<C::Part>> for ReleasePlay<C> {
    ghost use Rattle.hall.specs.Plays.{At, Releases};

    ghost then = { At (Releases C.CargoRule) };
}

pub struct UpgradeInPlay<C> {
    marker: PhantomData<C>,
}

impl<C: CargoRule> Play<(), View<C::Part>> for UpgradeInPlay<C> {
    ghost use Rattle.hall.specs.Plays.{TriedAt};
    ghost use Rattle.hall.specs.Upgrading.{TakesUpgrade, UpgradeMisses};

    ghost then = { TriedAt (TakesUpgrade C.CargoRule) (UpgradeMisses C.CargoRule) };
}

pub struct UpgradeOutPlay<C> {
    marker: PhantomData<C>,
}

impl<C: CargoRule> Play<(), View<C::Part>> for UpgradeOutPlay<C> {
    ghost use Rattle.hall.specs.Plays.{At};
    ghost use Rattle.hall.specs.Upgrading.{LeavesUpgrade};

    ghost then = { At (LeavesUpgrade C.CargoRule) };
}

pub struct UpgradeLowerPlay<C> {
    marker: PhantomData<C>,
}

impl<C: CargoRule> Play<(), View<C::Part>> for UpgradeLowerPlay<C> {
    ghost use Rattle.hall.specs.Plays.{At};
    ghost use Rattle.hall.specs.Upgrading.{LowersUpgrade};

    ghost then = { At (LowersUpgrade C.CargoRule) };
}

pub struct UpPlay<C> {
    marker: PhantomData<C>,
}

impl<C: CargoRule> Play<(), View<C::Part>> for UpPlay<C> {
    ghost use Rattle.hall.specs.Plays.{TriedAt};
    ghost use Rattle.hall.specs.Upgrading.{AnnouncesUp, UpMisses};

    ghost then = { TriedAt (AnnouncesUp C.CargoRule) (UpMisses C.CargoRule) };
}

pub struct UpRetractPlay<C> {
    marker: PhantomData<C>,
}

impl<C: CargoRule> Play<(), View<C::Part>> for UpRetractPlay<C> {
    ghost use Rattle.hall.specs.Plays.{At};
    ghost use Rattle.hall.specs.Upgrading.{RetractsUp};

    ghost then = { At (RetractsUp C.CargoRule) };
}

pub struct HoldUpPlay<C> {
    marker: PhantomData<C>,
}

impl<C: CargoRule> Play<(), View<C::Part>> for HoldUpPlay<C> {
    ghost use Rattle.hall.specs.Plays.{TriedAt, HoldMisses};
    ghost use Rattle.hall.specs.Upgrading.{HoldingUp};

    ghost then = { TriedAt (HoldingUp C.CargoRule) (HoldMisses C.CargoRule) };
}

pub struct ExclusiveSharedPlay<C> {
    marker: PhantomData<C>,
}

impl<C: CargoRule> Play<(), View<C::Part>> for ExclusiveSharedPlay<C> {
    ghost use Rattle.hall.specs.Plays.{At};
    ghost use Rattle.hall.specs.Upgrading.{LowersToShared};

    ghost then = { At (LowersToShared C.CargoRule) };
}

pub struct ExclusiveUpgradePlay<C> {
    marker: PhantomData<C>,
}

impl<C: CargoRule> Play<(), View<C::Part>> for ExclusiveUpgradePlay<C> {
    ghost use Rattle.hall.specs.Plays.{At};
    ghost use Rattle.hall.specs.Upgrading.{LowersToUpgrade};

    ghost then = { At (LowersToUpgrade C.CargoRule) };
}

pub struct PlaceSlotPlay<C> {
    marker: PhantomData<C>,
}

impl<C: CargoRule> Play<(), View<C::Part>> for PlaceSlotPlay<C> {
    ghost use Rattle.hall.specs.Slotting.{PlacedAt, PlacesToken, FindsTaken};

    ghost then = { PlacedAt (PlacesToken C.CargoRule) (FindsTaken C.CargoRule) };
}

pub struct WithdrawSlotPlay<C> {
    marker: PhantomData<C>,
}

impl<C: CargoRule> Play<(), View<C::Part>> for WithdrawSlotPlay<C> {
    ghost use Rattle.hall.specs.Slotting.{ClearedAt, Withdraws, Owes};

    ghost then = { ClearedAt (Withdraws C.CargoRule) (Owes C.CargoRule) };
}

pub struct LeaveSlotPlay<C> {
    marker: PhantomData<C>,
}

impl<C: CargoRule> Play<(), View<C::Part>> for LeaveSlotPlay<C> {
    ghost use Rattle.hall.specs.Slotting.{ClearedAt, LeavesSlot, IsInline};

    ghost then = { ClearedAt (LeavesSlot C.CargoRule) (IsInline C.CargoRule) };
}

pub struct PickPlay<C> {
    marker: PhantomData<C>,
}

impl<C: CargoRule> Play<(), View<C::Part>> for PickPlay<C> {
    ghost use Rattle.hall.specs.Slotting.{ClearedAt, PicksToken, FindsCleared};

    ghost then = { ClearedAt (PicksToken C.CargoRule) (FindsCleared C.CargoRule) };
}

pub struct CheckPlay<C> {
    marker: PhantomData<C>,
}

impl<C: CargoRule> Play<(), View<C::Part>> for CheckPlay<C> {
    ghost use Rattle.hall.specs.Plays.{At};
    ghost use Rattle.hall.specs.Slotting.{Checks};

    ghost then = { At (Checks C.CargoRule) };
}

pub struct AddHandPlay<C> {
    marker: PhantomData<C>,
}

impl<C: CargoRule> Play<(), View<C::Part>> for AddHandPlay<C> {
    ghost use Rattle.hall.specs.Plays.{At};
    ghost use Rattle.hall.specs.Slotting.{AddsHand};

    ghost then = { At (AddsHand C.CargoRule) };
}

/// For which lock a sweep loads a slot's word: neither the step nor its place says it. The call picks it.
pub trait ForLock {
    ghost use Rattle.std.specs.Prelude.{ℕ};

    ghost lock: { ℕ };
}

impl ForLock for Brand {
    ghost lock = { 0 };
}

pub struct LookPlay<K, C> {
    marker: PhantomData<(K, C)>,
}

impl<K: ForLock, C: CargoRule> Play<(), View<C::Part>> for LookPlay<K, C> {
    ghost use Rattle.hall.specs.Slotting.{LookedAt, LooksAtSlot};

    ghost then = { LookedAt K.lock (LooksAtSlot C.CargoRule) };
}

/// How many numbers and how much of the quota a split gives. The call picks them.
pub trait Cut {
    ghost use Rattle.std.specs.Prelude.{ℕ};

    ghost seats: { ℕ };

    ghost quota: { ℕ };
}

impl Cut for Brand {
    ghost seats = { 0 };

    ghost quota = { 0 };
}

pub struct Dividing<K, C> {
    marker: PhantomData<(K, C)>,
}

impl<K: Cut, C: CargoRule> Split<View<C::Part>> for Dividing<K, C> {
    ghost use Rattle.hall.specs.Views.{split_left, split_right};

    ghost left = { λ v. split_left K.seats K.quota (C.kept v.part) v };

    ghost right = { λ v. split_right K.seats K.quota (C.split_off v.part) v };
}

pub struct Joining<C> {
    marker: PhantomData<C>,
}

impl<C: CargoRule> Join<View<C::Part>> for Joining<C> {
    ghost use Rattle.hall.specs.Views.{joined_view, spent_view};

    ghost both = { λ v w. joined_view (C.joined v.part w.part) v w };

    ghost spent = { spent_view C.spent };
}

/// A look that isn't listed: it tells that the rule holds at a moment at which the pass has its view, and that the
/// quota is one of a `u64`.
pub struct UnlistedLook<C> {
    marker: PhantomData<C>,
}

impl<C: CargoRule> Play<(), View<C::Part>> for UnlistedLook<C> {
    ghost use Rattle.std.specs.Prelude.{◌≡◌, ◌<◌, ◌^◌};
    ghost use Rattle.hall.specs.Partings.{Met};

    ghost then = { λ st m r n. (n ≡ m) × (m.0.quota < 2 ^ 64) × Met C.CargoRule m.0 };
}

/// What a step leaves to its pass of the cargo: of the cargo's words of that moment, the word that it found, the part
/// before and the part after.
pub trait Note<C: CargoRule> {
    ghost use Rattle.std.specs.Prelude.{ℕ, List};

    ghost becomes: { List ℕ → ℕ → C.Part → C.Part → Type 0 };
}

pub struct LoadNotedAside<N, C> {
    marker: PhantomData<(N, C)>,
}

impl<C: CargoRule, N: Note<C>> Play<(), View<C::Part>> for LoadNotedAside<N, C> {
    ghost use Rattle.hall.specs.Plays.{At, LoadsNoted};

    ghost then = { At (LoadsNoted C.CargoRule N.becomes) };
}

pub struct LoadNoted<N, C> {
    marker: PhantomData<(N, C)>,
}

impl<C: CargoRule, N: Note<C>> Play<(), View<C::Part>> for LoadNoted<N, C> {
    ghost use Rattle.hall.specs.Plays.{OnCargo, LoadsWord};

    ghost then = { OnCargo (LoadsWord C.CargoRule N.becomes) };
}

pub struct AddNoted<N, C> {
    marker: PhantomData<(N, C)>,
}

impl<C: CargoRule, N: Note<C>> Play<(), View<C::Part>> for AddNoted<N, C> {
    ghost use Rattle.hall.specs.Plays.{OnCargo, AddsToWord};

    ghost then = { λ st. OnCargo (AddsToWord C.CargoRule N.becomes st.first) st };
}

pub struct StoreNoted<N, C> {
    marker: PhantomData<(N, C)>,
}

impl<C: CargoRule, N: Note<C>> Play<(), View<C::Part>> for StoreNoted<N, C> {
    ghost use Rattle.hall.specs.Plays.{OnCargo, StoresWord};

    ghost then = { OnCargo (StoresWord C.CargoRule N.becomes) };
}
