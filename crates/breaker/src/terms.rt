// Any breaker.
ghost use Rattle.std.specs.Prelude.{◌≡◌};
ghost use Rattle.breaker.specs.Terms.{BreakerTerms, BreakerLaws, take_tells};

use crate::words::{NotTaken, Order, Position};

/// A breaker states its meaning as a figure of its own kind: four faces are read from it, and three steps each lead to
/// exactly one next figure. What every breaker keeps is in the laws; a further breaker has these to show and no more.
pub trait Breaker {
    ghost Figure: { Type 0 };

    ghost figure: { Self → Figure };

    ghost terms: { BreakerTerms Figure };

    fn position(&self) -> Position
        ensures { result ≡ terms.position (figure self.now) };

    /// Whether a trip command failed.
    fn failed(&self) -> bool
        ensures { result ≡ terms.fail (figure self.now) };

    /// The order that it is carrying out.
    fn hand(&self) -> Option<Order>
        ensures { result ≡ terms.hand (figure self.now) };

    /// Whether an order is not taken at present.
    fn bars(&self, order: Order) -> bool
        ensures { result ≡ terms.bars (figure self.now) order };

    /// Refused exactly if the hand is not empty or the order is barred.
    fn take(&mut self, order: Order) -> Result<(), NotTaken>
        ensures told { result ≡ take_tells terms (figure self.old) order }
        ensures after { figure self.new ≡ terms.take (figure self.old) order };

    fn let_go(&mut self)
        ensures { figure self.new ≡ terms.let_go (figure self.old) };

    /// One tick, with the contact word of that moment.
    fn tick(&mut self, word: u32)
        ensures { figure self.new ≡ terms.tick (figure self.old) word };

    ghost laws: { BreakerLaws terms };
}
