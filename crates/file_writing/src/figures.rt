// "seven figures": those of the program's first line but for the passes
#[derive(Clone, Copy)]
pub struct Figures {
    pub nodes: u32,
    pub parts: u32,
    pub bandwidth: u32,
    pub profile: u32,
    pub front: u32,
    pub levels: u32,
    pub width: u32,
}
