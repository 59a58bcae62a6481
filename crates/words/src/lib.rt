// Words of 16 bits as octets, high octet first.
#![tactic(auto)]

ghost use Rattle.std.specs.Prelude.{◌≡◌, ℕ, ◌*◌, ◌<◌, List, ◌++◌, length, slice_index};
ghost use Rattle.words.specs.Words.{word_at, octet_at, high_first};

/// The word whose high octet has this place. Octets that are wanting count as 0. Words that were stored are read back.
pub fn word_at(octets: &[u8], place: usize) -> u16
    ensures value { result ≡ word_at octets.now place }
    ensures back { (ws rest : List ℕ) (j : ℕ) → octets.now ≡ high_first ws ++ rest → place ≡ 2 * j → j < length ws → result ≡ slice_index ws j }
{
    let high = octets.get(place).copied().unwrap_or(0);
    let low = octets.get(place.saturating_add(1)).copied().unwrap_or(0);
    u16::from_be_bytes([high, low])
}

/// The octet at a place of words that stand behind one another. Words that are wanting count as 0.
pub fn octet_at(words: &[u16], place: usize) -> u8
    ensures { result ≡ octet_at words.now place }
{
    match words.get(place / 2) {
        Some(word) => word.to_be_bytes()[place % 2],
        None => 0,
    }
}
