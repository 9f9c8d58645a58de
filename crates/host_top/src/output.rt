//! Standard output, where the program began with one.
use std::io;
use std::io::{ErrorKind, Stdout, Write};
use std::os::fd::AsFd;

/// Standard output. Where it was closed when the program began, its number may come to be that of a file that
/// the program opens: then nothing is ever written to it, and each call fails.
#[derive(Drop)]
pub struct Output {
    /// None where it was closed.
    pub stream: Option<Stdout>,
}

impl Output {
    /// Looks whether the stream is open, before anything else is opened.
    pub fn new(stdout: Stdout) -> Output {
        let stream = match stdout.as_fd().try_clone_to_owned() {
            Ok(_) => Some(stdout),
            Err(_) => None,
        };
        Output { stream }
    }
}

impl Write for Output {
    fn write(&mut self, buf: &[u8]) -> io::Result<usize> {
        match &mut self.stream {
            Some(stream) => stream.write(buf),
            None => Err(io::Error::from(ErrorKind::BrokenPipe)),
        }
    }

    fn flush(&mut self) -> io::Result<()> {
        match &mut self.stream {
            Some(stream) => stream.flush(),
            None => Err(io::Error::from(ErrorKind::BrokenPipe)),
        }
    }
}
