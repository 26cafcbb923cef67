// The rows of an index: what each seat is about.
use basis::kind::Kind;

/// A seat is away, seated with nothing to do, or in the middle of an operation on a target. Kind and target are two fields here and two parameters
/// elsewhere: a struct of the two would say no more than their names.
#[derive(Clone, Copy, PartialEq, Eq, Debug)]
pub enum Doing<K> {
    Away,
    Idle,
    Running { kind: Kind, target: K },
}

/// The row of a seat.
#[derive(Clone, Copy, PartialEq, Eq, Debug)]
pub struct Row<K> {
    pub doing: Doing<K>,
}
