/// A call on the outside failed: a read of a source, a write to a sink, a transfer of a leg. The
/// object's count of faults rose in that call.
#[derive(Clone, Copy, PartialEq, Eq, Debug)]
pub struct Failed;
