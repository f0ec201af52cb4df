use macho_image::image::Prepared;

/// The load commands that edits leave, which fit the file.
#[derive(Drop)]
pub struct Fit {
    /// How many load commands there are.
    pub count: u32,
    /// The bytes of the load commands.
    pub area: Vec<u8>,
    /// The furthest offset where commands will ever have ended.
    pub high: usize,
}

/// A batch of edits that was decided, with all the memory that carrying it out wants.
#[derive(Drop)]
pub struct Change {
    /// The new load commands.
    pub prepared: Prepared,
    /// The furthest offset where commands will ever have ended.
    pub high: usize,
}
