//! A file that comes to be when it is needed.
use std::io::Write;
use std::rt::Files;
use std::{fs, io};

/// A file that is created, or emptied, by the first write.
#[derive(Drop)]
pub struct LazyFile<'a, R: Files> {
    files: &'a R,
    path: &'a str,
    file: Option<R::File>,
}

impl<'a, R: Files> LazyFile<'a, R> {
    /// The file at a path, which is left alone so far.
    pub fn new(files: &'a R, path: &'a str) -> LazyFile<'a, R> {
        LazyFile {
            files,
            path,
            file: None,
        }
    }
}

impl<R: Files> Write for LazyFile<'_, R> {
    fn write(&mut self, buf: &[u8]) -> io::Result<usize> {
        match &mut self.file {
            Some(file) => file.write(buf),
            None => {
                let mut file = fs::create(self.files, self.path)?;
                let written = file.write(buf);
                self.file = Some(file);
                written
            }
        }
    }

    fn flush(&mut self) -> io::Result<()> {
        match &mut self.file {
            Some(file) => file.flush(),
            None => Ok(()),
        }
    }
}
