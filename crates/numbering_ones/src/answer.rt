// What the measures are handed over in.

// "Bandwidth is the greatest difference over an edge", "Profile is the sum of q − f_q", "the reported front is the greatest".
#[derive(Clone, Copy)]
pub struct Measures {
    pub bandwidth: u32,
    pub profile: u32,
    pub front: u32,
}
