// What a token begins.

/// What a token begins of connections.
#[derive(Clone, Copy)]
pub enum PinsOpener {
    Named,
    Ordered,
}
