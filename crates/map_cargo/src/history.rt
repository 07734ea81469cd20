//! Drawing a write and placing a read: where a reply stands in the one history.
ghost use Rattle.std.specs.Prelude.{◌≡◌, ◌≢◌, ◌<◌, ◌≤◌, ◌+◌, ◌%◌, ◌^◌, ◌∷◌, ◌++◌, ℕ, IfOk, MatchResult, slice_index, length, true, false};
ghost use Rattle.hall.specs.Passes.{view, IsPassOf, cargo_of};
ghost use Rattle.hall.specs.declared.view.StepKind.TheVariants.{LoadCargo, StoreCargo, AddCargo};
ghost use Rattle.lock_model.specs.Locks.{Has};
ghost use Rattle.query_rules.specs.declared.query.Query.TheVariants.{Audit};
ghost use Rattle.query_rules.specs.declared.query.Said.TheVariants.{Absent};
ghost use Rattle.hall.specs.declared.view.View.{View};
ghost use Rattle.map_cargo.specs.declared.entry.Entry.{Entry};
ghost use Rattle.map_cargo.specs.declared.entry.Part.{Part};
ghost use Rattle.map_cargo.specs.declared.entry.Told.TheVariants as told;
ghost use Rattle.map_cargo.specs.Cells.{log_place, number_place};
ghost use Rattle.map_cargo.specs.Entries.{log_words};
ghost use Rattle.map_cargo.specs.History.{IsPlainThen};
ghost use Rattle.map_cargo.specs.Moments.{PlainMoment, no_cells};
ghost use Rattle.map_cargo.specs.Steps.{Suits, Stays, Alike, Drew, cargo_step, logged, placed, row_stores, MayDraw, MayPlace};

use crate::entry::Entry;
use crate::size::MapCargo;
use hall::{Hall, Note, Pass};
use query_rules::Query;
use std::error::Error;
use std::fmt;
use std::marker::{Brand, PhantomData};

/// The entry of one call, which word of its log row, and the cargo. The call picks them.
pub(crate) trait CallLogWord {
    ghost use Rattle.std.specs.Prelude.{ℕ};
    ghost use Rattle.map_cargo.specs.declared.entry.Entry.{Entry};
    ghost use Rattle.map_cargo.specs.declared.size.MapCargo.{MapCargo};

    ghost entry: { Entry };

    ghost index: { ℕ };

    ghost cargo: { MapCargo };
}

impl CallLogWord for Brand {
    ghost entry = { record { caller = 0; index = 0; query = Audit; said = Absent } };

    ghost index = { 0 };

    ghost cargo = { no_cells };
}

pub(crate) struct Draws<K> {
    marker: PhantomData<K>,
}

impl<K: CallLogWord> Note<MapCargo> for Draws<K> {
    ghost becomes = { λ ws found p q. Drew 0 p q found K.entry × (found < K.cargo.writes) × IsPlainThen K.cargo ws found K.entry };
}

pub(crate) struct Logs<K> {
    marker: PhantomData<K>,
}

impl<K: CallLogWord> Note<MapCargo> for Logs<K> {
    ghost becomes = { λ ws found p q. q ≡ logged p (K.index + 1) };
}

pub(crate) struct Places<K> {
    marker: PhantomData<K>,
}

impl<K: CallLogWord> Note<MapCargo> for Places<K> {
    ghost becomes = { λ ws found p q. (q ≡ placed p found K.entry) × (p.seen ≤ found) × (found ≤ K.cargo.writes) × IsPlainThen K.cargo ws found K.entry };
}

/// The pass can draw no more writes.
#[derive(Clone, Copy, Debug, PartialEq, Eq)]
pub struct QuotaSpent;

impl fmt::Display for QuotaSpent {
    fn fmt<W: fmt::Write>(&self, f: &mut fmt::Formatter<W>) -> fmt::Result {
        write!(f, "the pass can draw no more writes")
    }
}

impl Error for QuotaSpent {}

// The words of an entry's log row: caller + 1, index, code of the query, cell, second cell, key and two numbers.
fn row_of(entry: &Entry, caller: u64) -> [u64; 8]
    requires { (caller ≡ entry.now.caller) × (caller < 2 ^ 20) }
    ensures { result ≡ log_words entry.now }
{
    let caller = caller + 1;
    let index = entry.index;
    match entry.query {
        Query::Put { cell, key, value } => [caller, index, 1, cell, 0, key, value, 0],
        Query::Del { cell, key } => [caller, index, 2, cell, 0, key, 0, 0],
        Query::Add { cell, key, delta } => [caller, index, 3, cell, 0, key, delta, 0],
        Query::Cas {
            cell,
            key,
            old,
            new,
        } => [caller, index, 4, cell, 0, key, old, new],
        Query::PutLen { cell, key, value } => [caller, index, 5, cell, 0, key, value, 0],
        Query::Move { from, to, key, n } => [caller, index, 6, from, to, key, n, 0],
        Query::TryPut { cell, key, value } => [caller, index, 7, cell, 0, key, value, 0],
        Query::PutBy {
            cell,
            key,
            value,
            deadline,
        } => [caller, index, 8, cell, 0, key, value, deadline],
        _ => [caller, index, 0, 0, 0, 0, 0, 0],
    }
}

fn draw_by<K: CallLogWord>(hall: &Hall<MapCargo>, pass: &mut Pass<MapCargo>, entry: &Entry) -> u64
    requires pass { IsPassOf hall.now pass.old }
    requires suits { Suits hall.now }
    requires entry { (entry.now ≡ K.entry) × (cargo_of hall.now ≡ K.cargo) }
    requires may { MayDraw (cargo_of hall.now) (view pass.old) entry.now }
    requires quota { 0 < (view pass.old).quota }
    ensures pass { IsPassOf hall.now pass.new × Stays (view pass.old) (view pass.new) }
    ensures quota { (view pass.new).quota + 1 ≡ (view pass.old).quota }
    ensures drew { Drew 0 (view pass.old).part (view pass.new).part result entry.now }
    ensures number { result < (cargo_of hall.now).writes }
    ensures step { (view pass.new).steps ≡ cargo_step (view pass.old) AddCargo (number_place (cargo_of hall.now)) result true ∷ (view pass.old).steps }
    ensures moment { PlainMoment (cargo_of hall.now) (view pass.old) (view pass.new) result ((result + 1) % 2 ^ 64) entry.now }
{
    let place = hall.cargo().number_place();
    hall.add_cargo::<Draws<K>>(pass, place, 1)
}

fn draw_number(hall: &Hall<MapCargo>, pass: &mut Pass<MapCargo>, entry: &Entry) -> u64
    requires pass { IsPassOf hall.now pass.old }
    requires suits { Suits hall.now }
    requires may { MayDraw (cargo_of hall.now) (view pass.old) entry.now }
    requires quota { 0 < (view pass.old).quota }
    ensures pass { IsPassOf hall.now pass.new × Stays (view pass.old) (view pass.new) }
    ensures quota { (view pass.new).quota + 1 ≡ (view pass.old).quota }
    ensures drew { Drew 0 (view pass.old).part (view pass.new).part result entry.now }
    ensures number { result < (cargo_of hall.now).writes }
    ensures step { (view pass.new).steps ≡ cargo_step (view pass.old) AddCargo (number_place (cargo_of hall.now)) result true ∷ (view pass.old).steps }
    ensures moment { PlainMoment (cargo_of hall.now) (view pass.old) (view pass.new) result ((result + 1) % 2 ^ 64) entry.now }
{
    draw_by::<Brand>(hall, pass, entry)
}

fn log_by<K: CallLogWord>(
    hall: &Hall<MapCargo>,
    pass: &mut Pass<MapCargo>,
    entry: &Entry,
    number: u64,
    index: u64,
    value: u64,
)
    requires pass { IsPassOf hall.now pass.old }
    requires suits { Suits hall.now }
    requires number { (number < (cargo_of hall.now).writes) × (number ≡ (view pass.old).part.row) }
    requires index { (index < 8) × (index ≡ K.index) × ((view pass.old).part.stored ≡ index) }
    requires entry { Has (view pass.old).part.told (told.Wrote number entry.now) }
    requires value { value ≡ slice_index (log_words entry.now) index }
    ensures pass { IsPassOf hall.now pass.new × Alike (view pass.old) (view pass.new) }
    ensures part { (view pass.new).part ≡ logged (view pass.old).part (index + 1) }
    ensures step { (view pass.new).steps ≡ cargo_step (view pass.old) StoreCargo (log_place (cargo_of hall.now) number index) (slice_index (log_words entry.now) index) true ∷ (view pass.old).steps }
{
    let place = hall.cargo().number_place();
    hall.store_cargo::<Logs<K>>(pass, place + 1 + 8 * number + index, value);
}

// Stores the next word of the log row that the pass has drawn.
fn log(
    hall: &Hall<MapCargo>,
    pass: &mut Pass<MapCargo>,
    entry: &Entry,
    number: u64,
    index: u64,
    value: u64,
)
    requires pass { IsPassOf hall.now pass.old }
    requires suits { Suits hall.now }
    requires number { (number < (cargo_of hall.now).writes) × (number ≡ (view pass.old).part.row) }
    requires index { (index < 8) × ((view pass.old).part.stored ≡ index) }
    requires entry { Has (view pass.old).part.told (told.Wrote number entry.now) }
    requires value { value ≡ slice_index (log_words entry.now) index }
    ensures pass { IsPassOf hall.now pass.new × Alike (view pass.old) (view pass.new) }
    ensures part { (view pass.new).part ≡ logged (view pass.old).part (index + 1) }
    ensures step { (view pass.new).steps ≡ cargo_step (view pass.old) StoreCargo (log_place (cargo_of hall.now) number index) (slice_index (log_words entry.now) index) true ∷ (view pass.old).steps }
{
    log_by::<Brand>(hall, pass, entry, number, index, value);
}

// Stores the log row that the pass has drawn.
#[tactic(auto, using(crate::proofs::Drawing::logged_so_far, crate::specs::StepLaws::alike_none, crate::specs::StepLaws::no_stores))]
fn log_row(hall: &Hall<MapCargo>, pass: &mut Pass<MapCargo>, entry: &Entry, number: u64)
    requires pass { IsPassOf hall.now pass.old }
    requires suits { Suits hall.now }
    requires number { (number < (cargo_of hall.now).writes) × (number ≡ (view pass.old).part.row) }
    requires stored { (view pass.old).part.stored ≡ 0 }
    requires entry { Has (view pass.old).part.told (told.Wrote number entry.now) × (entry.now.caller ≡ (view pass.old).number) }
    ensures pass { IsPassOf hall.now pass.new × Alike (view pass.old) (view pass.new) }
    ensures part { (view pass.new).part ≡ logged (view pass.old).part 8 }
    ensures steps { (view pass.new).steps ≡ row_stores (view pass.old) (cargo_of hall.now) number entry.now 8 ++ (view pass.old).steps }
{
    let words = row_of(entry, pass.number());
    for index in 0..8 {
        log(hall, pass, entry, number, index, words[index as usize]);
    }
}

/// Draws the next number for a write, by one fetch-add, at which the quota falls by 1, and stores its log row. The pass
/// holds each cell that the query names exclusively, and the entry says what the plain maps of this moment say to the
/// query.
///
/// Afterwards the pass's plain maps are those that the write leaves, so that a cell is settled once its words mean its
/// new map; whether the words change before or after the draw is free. `QuotaSpent` comes exactly at the quota 0; then
/// nothing is changed.
#[tactic(auto, using(crate::proofs::Drawing::drew_whole, crate::specs::StepLaws::stays_none, crate::specs::StepLaws::stays_then))]
pub fn draw(
    hall: &Hall<MapCargo>,
    pass: &mut Pass<MapCargo>,
    entry: &Entry,
) -> Result<u64, QuotaSpent>
    requires pass { IsPassOf hall.now pass.old }
    requires suits { Suits hall.now }
    requires caller { entry.now.caller ≡ (view pass.old).number }
    requires may { MayDraw (cargo_of hall.now) (view pass.old) entry.now }
    ensures pass { IsPassOf hall.now pass.new × Stays (view pass.old) (view pass.new) }
    ensures drawn { MatchResult result (λ number. Drew 8 (view pass.old).part (view pass.new).part number entry.now × ((view pass.new).quota + 1 ≡ (view pass.old).quota) × (number < (cargo_of hall.now).writes)) (λ _. ((view pass.old).quota ≡ 0) × (view pass.new ≡ view pass.old)) }
    ensures steps { IfOk result (λ number. (view pass.new).steps ≡ row_stores (view pass.old) (cargo_of hall.now) number entry.now 8 ++ (cargo_step (view pass.old) AddCargo (number_place (cargo_of hall.now)) number true ∷ (view pass.old).steps)) }
    ensures moment { IfOk result (λ number. (drew : View Part) × PlainMoment (cargo_of hall.now) (view pass.old) drew number ((number + 1) % 2 ^ 64) entry.now) }
{
    if pass.quota() == 0 {
        return Err(QuotaSpent);
    }
    let number = draw_number(hall, pass, entry);
    log_row(hall, pass, entry, number);
    Ok(number)
}

fn place_by<K: CallLogWord>(hall: &Hall<MapCargo>, pass: &mut Pass<MapCargo>, entry: &Entry) -> u64
    requires pass { IsPassOf hall.now pass.old }
    requires suits { Suits hall.now }
    requires entry { (entry.now ≡ K.entry) × (cargo_of hall.now ≡ K.cargo) }
    requires may { MayPlace (cargo_of hall.now) (view pass.old) entry.now }
    ensures pass { IsPassOf hall.now pass.new × Alike (view pass.old) (view pass.new) }
    ensures placed { ((view pass.new).part ≡ placed (view pass.old).part result entry.now) × ((view pass.old).part.seen ≤ result) }
    ensures number { result ≤ (cargo_of hall.now).writes }
    ensures step { (view pass.new).steps ≡ cargo_step (view pass.old) LoadCargo (number_place (cargo_of hall.now)) result false ∷ (view pass.old).steps }
    ensures moment { PlainMoment (cargo_of hall.now) (view pass.old) (view pass.new) result result entry.now }
{
    let place = hall.cargo().number_place();
    hall.load_cargo::<Places<K>>(pass, place)
}

/// Places a read, by one load of the number word, which it answers: so many writes were drawn before it. The pass holds
/// each cell that the reply speaks of, in any mode, and the entry says what the plain maps of this moment say to the
/// query.
pub fn place_read(hall: &Hall<MapCargo>, pass: &mut Pass<MapCargo>, entry: &Entry) -> u64
    requires pass { IsPassOf hall.now pass.old }
    requires suits { Suits hall.now }
    requires caller { entry.now.caller ≡ (view pass.old).number }
    requires may { MayPlace (cargo_of hall.now) (view pass.old) entry.now }
    ensures pass { IsPassOf hall.now pass.new × Alike (view pass.old) (view pass.new) }
    ensures placed { ((view pass.new).part ≡ placed (view pass.old).part result entry.now) × ((view pass.old).part.seen ≤ result) }
    ensures number { result ≤ (cargo_of hall.now).writes }
    ensures step { (view pass.new).steps ≡ cargo_step (view pass.old) LoadCargo (number_place (cargo_of hall.now)) result false ∷ (view pass.old).steps }
    ensures moment { PlainMoment (cargo_of hall.now) (view pass.old) (view pass.new) result result entry.now }
{
    place_by::<Brand>(hall, pass, entry)
}
