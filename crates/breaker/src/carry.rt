// An order handed to any breaker, and ticks until it is out of the hand.
ghost use Rattle.std.specs.Prelude.{◌≡◌, IfOk};
ghost use Rattle.breaker.specs.Carried.{ticks, ticked, carried, carried_tells, CarriedOut};

use crate::terms::Breaker;
use crate::words::{NotTaken, Order};

// Ticks with one contact word after the other until the hand is empty or the words run out.
fn tick_out<B: Breaker>(breaker: &mut B, words: &[u32]) -> usize
    ensures told { result ≡ ticks B.Breaker.terms (B.Breaker.figure breaker.old) words.now }
    ensures after { B.Breaker.figure breaker.new ≡ ticked B.Breaker.terms (B.Breaker.figure breaker.old) words.now }
{
    // By a `for`: a closure that ticks would change the breaker that it borrows, and a proof knows nothing of that.
    for (made, word) in words.iter().enumerate() {
        if breaker.hand().is_none() {
            return made;
        }
        breaker.tick(*word);
    }
    words.len()
}

/// Hands an order over, then ticks with one contact word after the other until the hand is empty or the words run out.
/// Tells how many ticks were made.
pub fn carry_out<B: Breaker>(
    breaker: &mut B,
    order: Order,
    words: &[u32],
) -> Result<usize, NotTaken>
    ensures told { result ≡ carried_tells B.Breaker.terms (B.Breaker.figure breaker.old) order words.now }
    ensures after { B.Breaker.figure breaker.new ≡ carried B.Breaker.terms (B.Breaker.figure breaker.old) order words.now }
    ensures hand { IfOk result (CarriedOut B.Breaker.terms (B.Breaker.figure breaker.new) order words.now) }
{
    breaker.take(order)?;
    Ok(tick_out(breaker, words))
}
