// The kept patterns, in the store: a slot of eleven cells, ten factors and a composite, for each of the ten patterns that a line may keep.
ghost use Rattle.std.specs.Prelude.{[], ◌∷◌, ◌++◌, ◌≡◌};
ghost use Rattle.state.specs.Patterns.{factor_in, factor_at, with_slot_of};

use crate::cells::{slot_start, write};
use crate::store::Store;
use factor::pattern::Pattern;
use kinds::factor::{Factor, FactorLimits};
use kinds::within::Limits;
use letters::covered::Covered;

// The place of the composite in a slot, after the ten factors.
pub const COMPOSITE: usize = 10;

// A factor of the slot of a letter and an accident year, or its composite. Where there is no slot or place, 0.
#[tactic(auto, using(crate::proofs::SlotPieces::slot_read, crate::proofs::SlotPieces::no_slot, crate::proofs::SlotPieces::past_slot))]
pub fn factor_in(store: &Store, letter: u8, year: u64, place: usize) -> u64
    ensures { result ≡ factor_at store.now letter year place }
{
    match Covered::new(letter) {
        Some(letter) if place <= COMPOSITE => factor_of(store[slot_start(letter, year) + place]),
        _ => 0,
    }
}

// The factor that a cell holds: past 1 it is read as 1.
fn factor_of(cell: u64) -> u64
    ensures { result ≡ factor_in cell }
{
    Factor::new(cell).map_or(FactorLimits::MOST, |factor| factor.number())
}

// The store with the slot of a letter and an accident year anew. A letter that is not covered has no slot.
#[tactic(auto, using(crate::proofs::SlotPieces::slot_kept))]
pub fn keep_pattern(store: &mut Store, letter: u8, year: u64, pattern: Pattern)
    ensures { store.new ≡ with_slot_of store.old letter year (pattern.factors ++ (pattern.composite ∷ [])) }
{
    if let Some(letter) = Covered::new(letter) {
        let at = slot_start(letter, year);
        write(store, at, &pattern.factors);
        store[at + COMPOSITE] = pattern.composite;
    }
}
