//! What comes out of a frame that comes in pieces.
use tl_file::Bytes;
use tl_path::Path;

/// What a piece of a frame tells.
#[derive(Debug, Drop)]
pub enum FrameEvent {
    /// The entry's text, whole.
    Entry(Bytes),
    /// A file begins.
    File {
        /// Its path.
        path: Path,
        /// The number of its bytes.
        len: u64,
    },
    /// The next bytes of the file that began last; at least one.
    Bytes(Bytes),
    /// The frame has ended.
    End,
}
