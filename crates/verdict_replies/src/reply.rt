// What a command replies.

/// What is to be written, and the status.
#[derive(Drop)]
pub struct Reply {
    /// The exit status.
    pub status: u8,
    /// The text.
    pub text: Vec<u8>,
}
