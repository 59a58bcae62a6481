// What a panel shows, as text.
#![tactic(auto)]

ghost use Rattle.std.specs.Prelude.{◌≡◌, IfOk, Some, string_bytes};
ghost use Rattle.readout.specs.Readout.{hand_name, where_so, bars_text, words_text, breaker_text, store_text, state_text};

use breaker::Order;
use parts::Panel;
use std::alloc::{AllocError, Global};
use std::fmt;

// The order in hand.
#[derive(Clone, Copy)]
struct Hand(Option<Order>);

impl fmt::Display for Hand {
    ghost output = { λ h. Some (hand_name h.0) };

    fn fmt<W: fmt::Write>(&self, f: &mut fmt::Formatter<W>) -> fmt::Result {
        match &self.0 {
            Some(order) => order.fmt(f),
            None => f.write_str("empty"),
        }
    }
}

// Position, fail and hand.
#[derive(Clone, Copy)]
struct BreakerFaces<'a>(&'a Panel);

impl fmt::Display for BreakerFaces<'_> {
    ghost output = { λ b. Some (breaker_text b.0.now) };

    fn fmt<W: fmt::Write>(&self, f: &mut fmt::Formatter<W>) -> fmt::Result {
        let position = self.0.position;
        let fail = if self.0.failed { "failed" } else { "ok" };
        let hand = Hand(self.0.hand);
        write!(f, "{position}, {fail}, hand {hand}")
    }
}

// A text where something holds.
fn where_so(holds: bool, text: &'static str) -> &'static str
    ensures { result.now ≡ where_so holds text.now }
{
    if holds { text } else { "" }
}

// The orders that are not taken at present. Spelled here, not by `Order`: one format of four texts, where each may be empty.
#[derive(Clone, Copy)]
struct Bars<'a>(&'a Panel);

impl fmt::Display for Bars<'_> {
    ghost output = { λ b. Some (bars_text b.0.now) };

    fn fmt<W: fmt::Write>(&self, f: &mut fmt::Formatter<W>) -> fmt::Result {
        let panel = self.0;
        let none = where_so(
            !panel.bars_open && !panel.bars_close && !panel.bars_reset,
            " none",
        );
        let open = where_so(panel.bars_open, " open");
        let close = where_so(panel.bars_close, " close");
        let reset = where_so(panel.bars_reset, " reset");
        write!(f, "{none}{open}{close}{reset}")
    }
}

// Words of settings, each behind a space.
#[derive(Clone, Copy)]
struct Words<'a>(&'a [u16]);

impl fmt::Display for Words<'_> {
    ghost output = { λ w. Some (words_text w.0.now) };

    fn fmt<W: fmt::Write>(&self, f: &mut fmt::Formatter<W>) -> fmt::Result {
        for word in self.0 {
            write!(f, " {word}")?;
        }
        Ok(())
    }
}

// Whether the store is sound, and how long it is busy.
#[derive(Clone, Copy)]
struct StoreFaces<'a>(&'a Panel);

impl fmt::Display for StoreFaces<'_> {
    ghost output = { λ s. Some (store_text s.0.now) };

    fn fmt<W: fmt::Write>(&self, f: &mut fmt::Formatter<W>) -> fmt::Result {
        let mark = if self.0.sound { "sound" } else { "unsound" };
        let busy = self.0.busy;
        write!(f, "{mark}, busy {busy}")
    }
}

/// Position, fail, hand, settings in force, bars, and whether the store is sound and how long it is busy.
pub fn state_text(heap: Global, panel: &Panel) -> Result<String, AllocError>
    ensures { IfOk result (λ s. string_bytes s ≡ state_text panel.now) }
{
    let breaker = BreakerFaces(panel);
    let settings = Words(&panel.settings.words);
    let bars = Bars(panel);
    let store = StoreFaces(panel);
    format!(in heap; "state: {breaker}, settings{settings}, bars{bars}, {store}")
}
