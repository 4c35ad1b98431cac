//! What a receiving call answers.

use crate::error::Fail;

/// Why nothing came: the outside is not ready, or it is silent until something else happens.
#[derive(Clone, Copy, Debug, PartialEq, Eq)]
pub enum Pause {
    NotReady,
    Silent,
}

/// What was taken from the outside. `More` comes exactly where bytes came in this call and
/// neither an item nor an end nor a refusal stands yet.
#[derive(Drop)]
pub enum Took<T> {
    Item(T),
    More,
    Waited(Pause),
    End,
    Failed(Fail),
}
