//! What is left where what is asked of the file at a path is not done.

/// Why what a command asks of the file at a path was not done, and the store that was opened there.
#[derive(Drop)]
pub struct NotDone<S, E> {
    /// The cause.
    pub error: E,
    /// The store that was opened at the path, with the bytes that the error left in it; none where nothing was opened.
    pub store: Option<S>,
}
