// What a panel shows of a breaker and a store.
ghost use Rattle.std.specs.Prelude.{◌≡◌};
ghost use Rattle.parts.specs.Panel.{panel_of};

use breaker::{Breaker, Order, Position};
use settings::Settings;
use store::{Store, in_force};

/// The faces of a breaker, the settings in force, and whether the store is sound and how long it is busy.
#[derive(Clone, Copy, PartialEq, Eq, Debug)]
pub struct Panel {
    pub position: Position,
    pub failed: bool,
    pub hand: Option<Order>,
    pub bars_open: bool,
    pub bars_close: bool,
    pub bars_reset: bool,
    pub settings: Settings,
    pub sound: bool,
    pub busy: u8,
}

pub(crate) fn panel_of<B: Breaker, S: Store>(breaker: &B, store: &S) -> Panel
    ensures { result ≡ panel_of B.Breaker.terms (B.Breaker.figure breaker.now) (S.Store.kept store.now) }
{
    Panel {
        position: breaker.position(),
        failed: breaker.failed(),
        hand: breaker.hand(),
        bars_open: breaker.bars(Order::Open),
        bars_close: breaker.bars(Order::Close),
        bars_reset: breaker.bars(Order::Reset),
        settings: in_force(store),
        sound: store.is_sound(),
        busy: store.busy(),
    }
}
