// What a search found, and in how many rounds: nothing to raise any more, or a chain of this length.
#[derive(Clone, Copy, PartialEq, Eq, Debug)]
pub struct Found {
    pub rounds: usize,
    pub chain: Option<usize>,
}
