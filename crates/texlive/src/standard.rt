//! The standard streams.
use std::alloc::Global;
use std::fs::File;
use std::os::fd::AsRawFd;
use std::rt::Files;

// How many standard streams there are, by number from 0.
const STREAMS: i32 = 3;

/// Stands in for the standard streams that are closed, for as long as it lives: else a file of a tree would be opened in their place, and
/// what is said would be written to it. Nothing can be read from it or written to it.
#[derive(Drop)]
pub struct Standard {
    held: Vec<File>,
}

impl Standard {
    /// Fills the places of the streams that are closed, as far as memory and the system let it.
    pub fn fill<R: Files<File = File>>(rt: &R, alloc: Global) -> Standard {
        let mut standard = Standard {
            held: Vec::new(alloc),
        };
        for _ in 0..STREAMS {
            if !standard.fill_one(rt) {
                break;
            }
        }
        standard
    }

    // Whether a stream was closed.
    fn fill_one<R: Files<File = File>>(&mut self, rt: &R) -> bool {
        match File::open(rt, "/dev/null") {
            Ok(file) if file.as_raw_fd() < STREAMS => self.held.push(file).is_ok(),
            _ => false,
        }
    }
}
