// The operations on the ordered set.
ghost use Rattle.std.specs.Prelude.{Some};
ghost use Rattle.basis.specs.Kinds.{kind_word};

use std::fmt;

/// What a running row is about: to tell whether its target is in the set, to put it in, or to take it out.
#[derive(Clone, Copy, PartialEq, Eq, Debug)]
pub enum Kind {
    Lookup,
    Insert,
    Remove,
}

impl fmt::Display for Kind {
    ghost output = { λ k. Some (kind_word k) };

    fn fmt<W: fmt::Write>(&self, f: &mut fmt::Formatter<W>) -> fmt::Result {
        match *self {
            Kind::Lookup => write!(f, "lookup"),
            Kind::Insert => write!(f, "insert"),
            Kind::Remove => write!(f, "remove"),
        }
    }
}
