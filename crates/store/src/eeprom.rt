// The store that writes behind.
ghost use Rattle.std.specs.Prelude.{◌≡◌, ℕ, ◌≤◌, List};
ghost use Rattle.store.specs.Stores.{eeprom, kept_by_eeprom, opened, eight_at};
ghost use Rattle.store.specs.Laws.{ReadAfter, Recalled, DamageSeen};
ghost use Rattle.std.proofs.Common.{rules};

use crate::image::{congruency, image, words_in};
use crate::memory::EepromStore;
use crate::terms::{Busy, Store};
use settings::{LawfulSettings, Settings};

// The eight octets from a place on, or as many as there are.
fn write_eight(octets: &mut [u8; 23], image: &[u8; 23], start: usize)
    requires { start ≤ 23 }
    ensures { octets.new ≡ eight_at start image.now octets.old }
{
    let end = octets.len().min(start + 8);
    octets[start..end].copy_from_slice(&image[start..end]);
}

impl EepromStore {
    /// It opens from any 23 octets: eleven words and a congruency octet, and is sound exactly if that octet fits. From the
    /// octets that stand there three ticks after a put, it opens with the words that were put; with one of them changed, it
    /// opens unsound.
    pub fn open(octets: [u8; 23]) -> EepromStore
        ensures after { kept_by_eeprom result ≡ opened octets }
        ensures held { result.octets ≡ octets }
        ensures recalled { Recalled octets (kept_by_eeprom result) }
        ensures damage { DamageSeen octets (kept_by_eeprom result) }
    {
        let words = words_in(&octets);
        // By place: a pattern that binds the first 22 was tried, by value and by reference, and the borrow check does not
        // cover it; over a slice it would need an arm that is never taken.
        let sound = octets[22] == congruency(&octets[0..22]);
        EepromStore {
            octets,
            settings: Settings { words },
            sound,
            busy: 0,
        }
    }

    /// The octets as they are at this moment: after a put, the old ones; then, tick by tick, eight, eight and seven new ones.
    pub fn octets(&self) -> [u8; 23]
        ensures value { result ≡ self.now.octets }
        ensures behind { ReadAfter result }
    {
        self.octets
    }
}

impl Store for EepromStore {
    ghost kept = { kept_by_eeprom };

    ghost Cells = { List ℕ };

    ghost cells = { λ e. e.octets };

    ghost terms = { eeprom };

    ghost laws = { Prim.search rules };

    // This and `is_sound` are alike in both stores: a struct of settings and mark in both would need as many lines.
    fn settings(&self) -> Settings {
        self.settings
    }

    fn is_sound(&self) -> bool {
        self.sound
    }

    fn busy(&self) -> u8 {
        self.busy
    }

    fn put(&mut self, settings: LawfulSettings) -> Result<(), Busy> {
        if self.busy != 0 {
            return Err(Busy);
        }
        self.settings = settings.settings();
        self.sound = true;
        self.busy = 3;
        Ok(())
    }

    fn tick(&mut self) {
        if self.busy > 0 {
            let image = image(&self.settings.words);
            write_eight(&mut self.octets, &image, 8 * usize::from(3 - self.busy));
            self.busy -= 1;
        }
    }
}
