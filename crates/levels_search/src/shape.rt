// What a search returns. In a module of its own: a type and a function may not share a name in one.
#[derive(Clone, Copy)]
pub struct Rooted {
    pub depth: u16,
    pub width: u16,
    pub reached: u16,
    // where in the queue the last level begins
    pub last: u16,
}
