// The two orders that a graph is numbered in: that of the run, and that of document 02's A.3.
#[derive(Clone, Copy)]
pub enum Order {
    GibbsPooleStockmeyer,
    ReverseCuthillMcKee,
}
