// Where a clause lies among the literals of a packed book.
#[derive(Clone, Copy)]
pub struct Span {
    pub start: u32,
    pub length: u32,
}
