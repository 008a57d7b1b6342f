use super::link::{Kept, Link};
use kinds::kind::Kind;

// The tables that a caller lends to a verdict, each with a row for every event. Three slices and no slice of structs: there is
// no heap, and a caller keeps the times and the chain and throws the scratch away.
#[derive(Drop)]
pub struct Tables<'t, K: Kind> {
    pub times: &'t mut [K::Row],
    pub chain: &'t mut [Link],
    pub scratch: &'t mut [Kept],
}
