// What the part report answers.

// "a direction, which is Forward or Reversed"
#[derive(Clone, Copy)]
pub enum Direction {
    Forward,
    Reversed,
}

// "The part report gives v and u as now named, k, the combined levels' width, passes and a direction"; the width is in unknowns
#[derive(Clone, Copy)]
pub struct PartReport {
    pub v: u16,
    pub u: u16,
    pub k: u16,
    pub width: u16,
    pub passes: u16,
    pub direction: Direction,
}
