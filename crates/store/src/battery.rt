// The store whose memory a battery keeps.
ghost use Rattle.std.specs.Prelude.{◌≡◌};
ghost use Rattle.store.specs.Stores.{battery, kept_by_battery};
ghost use Rattle.store.specs.Store.{kept};
ghost use Rattle.std.proofs.Common.{rules};

use crate::memory::BatteryStore;
use crate::terms::{Busy, Store};
use settings::{LawfulSettings, Settings};

impl BatteryStore {
    /// It opens from any eleven words and a mark.
    pub fn new(settings: Settings, sound: bool) -> BatteryStore
        ensures { kept_by_battery result ≡ kept settings.words sound 0 }
    {
        BatteryStore { settings, sound }
    }
}

impl Store for BatteryStore {
    ghost kept = { kept_by_battery };

    ghost Cells = { Unit {0} };

    ghost cells = { λ b. tt };

    ghost terms = { battery };

    ghost laws = { Prim.search rules };

    // This and `is_sound` are alike in both stores: a struct of settings and mark in both would need as many lines.
    fn settings(&self) -> Settings {
        self.settings
    }

    fn is_sound(&self) -> bool {
        self.sound
    }

    fn busy(&self) -> u8 {
        0
    }

    fn put(&mut self, settings: LawfulSettings) -> Result<(), Busy> {
        self.settings = settings.settings();
        self.sound = true;
        Ok(())
    }

    fn tick(&mut self) {}
}
