// Links: the edges of the constraint graph of a trace.

// What a link comes from: neighbouring events, or a limit of the delay of that number.
#[derive(Clone, Copy, PartialEq, Eq, Debug, Default)]
pub enum Bound {
    #[default]
    Gap,
    Lower(u8),
    Upper(u8),
}

// A link between two events, as it lies in the chain table.
#[derive(Clone, Copy, PartialEq, Eq, Debug, Default)]
pub struct Link {
    pub from: u16,
    pub to: u16,
    pub by: Bound,
}

// A link with its weight: `to` comes at least `rise` after `from`. The link's cost is the opposite of its rise.
#[derive(Clone, Copy)]
pub struct Arc<K> {
    pub link: Link,
    pub rise: K,
}

// The other end of a link into an event, and what the link comes from.
#[derive(Clone, Copy, PartialEq, Eq, Debug)]
pub struct Origin {
    pub from: u16,
    pub by: Bound,
}

// The link that last raised an event's label, and the mark of a walk that passed it: 0 is none, since an Option would make
// every row two bytes longer. Events go by their numbers here, since there is no heap to point into.
#[derive(Clone, Copy, PartialEq, Eq, Debug, Default)]
pub struct Kept {
    pub link: Option<Origin>,
    pub stamp: u16,
}
