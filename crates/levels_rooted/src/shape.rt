// "Depth, width and the count reached are returned".
#[derive(Clone, Copy)]
pub struct Figures {
    pub depth: u16,
    pub width: u16,
    pub reached: u16,
}
