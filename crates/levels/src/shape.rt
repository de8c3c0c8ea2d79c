// What is returned of one part. In a module of its own: a type and a function may not share a name in one.

// "The call returns v, u, k, both widths and the passes".
#[derive(Clone, Copy)]
pub struct PartEnds {
    pub v: u16,
    pub u: u16,
    pub k: u16,
    pub widthv: u16,
    pub widthu: u16,
    pub passes: u16,
}

#[derive(Clone, Copy)]
pub struct PartLevels {
    pub v: u16,
    pub u: u16,
    pub k: u16,
    // the greatest count of a combined level
    pub width: u16,
    pub passes: u16,
}
