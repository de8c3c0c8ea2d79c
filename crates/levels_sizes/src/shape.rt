// "both widths": of the levels rooted at v and at u.
#[derive(Clone, Copy)]
pub struct Widths {
    pub v: u16,
    pub u: u16,
}
