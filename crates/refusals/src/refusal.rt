// What a refused call tells its caller.
use std::fmt;

// The layer in which a refusal arose.
#[derive(Clone, Copy, PartialEq, Eq, Debug)]
pub enum Layer {
    Bits,
    Selection,
    Reader,
}

// A refusal by its number, its place and its layer; `docs/RULES.md` has the table. The number is what scripts print and what callers in other languages are told; inside the library a refusal is a fault, which is an enum.
#[derive(Clone, Copy, PartialEq, Eq, Debug)]
pub struct Refusal {
    pub number: u8,
    pub place: usize,
    pub layer: Layer,
}

impl fmt::Display for Layer {
    fn fmt<W: fmt::Write>(&self, f: &mut fmt::Formatter<W>) -> fmt::Result {
        f.write_str(match self {
            Layer::Bits => "bits",
            Layer::Selection => "selection",
            Layer::Reader => "reader",
        })
    }
}

// Number, place and layer, as scripts tell them.
impl fmt::Display for Refusal {
    fn fmt<W: fmt::Write>(&self, f: &mut fmt::Formatter<W>) -> fmt::Result {
        write!(f, "{} {} {}", self.number, self.place, self.layer)
    }
}
