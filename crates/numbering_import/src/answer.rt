// What the call is handed beside its lists.

// "They also send bandwidth, profile and front": as wide as a caller can hand them, so that a wrong figure is not cut down to a right one.
#[derive(Clone, Copy)]
pub struct SuppliedFigures {
    pub bandwidth: u64,
    pub profile: u64,
    pub front: u64,
}
