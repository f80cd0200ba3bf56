//! Places at which the threads of a run can be told to take turns.

/// A place in the work on the input's lines.
#[derive(Clone, Copy, Debug, PartialEq, Eq)]
pub enum Point {
    /// Just before the query of this line looks at the board.
    BeforeLook { line: u64 },
    /// While the query of this line looks at the board, before its search. A thread that is held
    /// here keeps its copy, so the publisher waits for it with the second post from then on.
    InLook { line: u64 },
    /// Just after the message of this line was published.
    AfterPost { line: u64 },
}

/// Something that is told when a point is reached. It takes no runtime, so it returns; it promises
/// nothing else.
pub trait Gate {
    /// The point is reached.
    fn at(&self, point: Point);
}

/// A gate that does nothing.
#[derive(Clone, Copy, Debug, PartialEq, Eq)]
pub struct NoGate;

impl Gate for NoGate {
    fn at(&self, _point: Point) {}
}
