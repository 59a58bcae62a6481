// Any store.
ghost use Rattle.std.specs.Prelude.{◌≡◌};
ghost use Rattle.store.specs.Store.{Kept, StoreTerms, StoreLaws, put_into, put_tells, ticked, in_force, cells_put};

use settings::{LawfulSettings, Settings};

/// The store is still writing.
#[derive(Clone, Copy, PartialEq, Eq, Debug)]
pub struct Busy;

/// A store means eleven words, a sound mark and 0 to 50 busy ticks, and it has a write time of 0 to 50 ticks of its own.
/// Its cells are all that it holds beside that; they too have exactly one next state.
pub trait Store {
    ghost kept: { Self → Kept };

    ghost Cells: { Type 0 };

    ghost cells: { Self → Cells };

    ghost terms: { StoreTerms Cells };

    fn settings(&self) -> Settings
        ensures { result.words ≡ (kept self.now).words };

    fn is_sound(&self) -> bool
        ensures { result ≡ (kept self.now).sound };

    /// How many ticks it will still be writing.
    fn busy(&self) -> u8
        ensures { result ≡ (kept self.now).busy };

    /// A new set; refused exactly if the store is busy.
    fn put(&mut self, settings: LawfulSettings) -> Result<(), Busy>
        ensures told { result ≡ put_tells (kept self.old) }
        ensures after { kept self.new ≡ put_into terms.write_time settings (kept self.old) }
        ensures held { cells self.new ≡ cells_put terms (kept self.old) settings (cells self.old) };

    fn tick(&mut self)
        ensures after { kept self.new ≡ ticked (kept self.old) }
        ensures held { cells self.new ≡ terms.tick (cells self.old) (kept self.old) };

    ghost laws: { StoreLaws terms kept };
}

/// The settings in force: the store's if it is sound, otherwise the factory set.
pub fn in_force<S: Store>(store: &S) -> Settings
    ensures { result.words ≡ in_force (S.Store.kept store.now) }
{
    if store.is_sound() {
        store.settings()
    } else {
        LawfulSettings::factory().settings()
    }
}
