// What is known of a part once the levels rooted at its end v are found.
#[derive(Clone, Copy)]
pub struct PartRoot {
    pub v: u16,
    // how many levels are rooted at it
    pub k: u16,
    pub passes: u16,
}
