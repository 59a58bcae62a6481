// Layers and faults as they are printed.
ghost use Rattle.std.specs.Prelude.{Some};
ghost use Rattle.outcome.specs.Texts.{layer_name, fault_text};

use crate::causes::Layer;
use crate::faults::Fault;
use std::fmt;

impl fmt::Display for Layer {
    ghost output = { λ layer. Some (layer_name layer) };

    fn fmt<W: fmt::Write>(&self, f: &mut fmt::Formatter<W>) -> fmt::Result {
        f.write_str(match self {
            Layer::Entry => "entry",
            Layer::Line => "line",
            Layer::Request => "request",
            Layer::Device => "device",
        })
    }
}

/// The layer, the number of the cause, and the place.
impl fmt::Display for Fault {
    ghost output = { λ fault. Some (fault_text fault) };

    fn fmt<W: fmt::Write>(&self, f: &mut fmt::Formatter<W>) -> fmt::Result {
        let layer = self.layer;
        let number = self.cause.number();
        let place = self.place;
        write!(f, "fault {layer} {number} at {place}")
    }
}
