// What is said to a breaker, and what it shows.
ghost use Rattle.std.specs.Prelude.{Some};
ghost use Rattle.breaker.specs.Names.{order_name, position_name};

use std::fmt;

#[derive(Clone, Copy, PartialEq, Eq, Debug)]
pub enum Order {
    Open,
    Close,
    Reset,
}

impl fmt::Display for Order {
    ghost output = { λ o. Some (order_name o) };

    fn fmt<W: fmt::Write>(&self, f: &mut fmt::Formatter<W>) -> fmt::Result {
        f.write_str(match self {
            Order::Open => "open",
            Order::Close => "close",
            Order::Reset => "reset",
        })
    }
}

#[derive(Clone, Copy, PartialEq, Eq, Debug)]
pub enum Position {
    Open,
    Closed,
    Tripped,
}

impl fmt::Display for Position {
    ghost output = { λ p. Some (position_name p) };

    fn fmt<W: fmt::Write>(&self, f: &mut fmt::Formatter<W>) -> fmt::Result {
        f.write_str(match self {
            Position::Open => "open",
            Position::Closed => "closed",
            Position::Tripped => "tripped",
        })
    }
}

/// The hand is not empty, or the order is barred.
#[derive(Clone, Copy, PartialEq, Eq, Debug)]
pub struct NotTaken;
