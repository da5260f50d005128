//! A file, a stream and a file system that read and write a few bytes at a time, and then fail.
use std::alloc::Allocator;
use std::fs::{Files, Metadata, OpenFile, OpenOptions};
use std::io::{self, Read, Seek, SeekFrom, Write};

// A file or stream that has room for some bytes. A read gives the next three of them, a write replaces the next two. At the end of the
// room it fails, or reads and writes nothing. As a file system it has itself under every name.
#[derive(Clone, Copy)]
pub(crate) struct Few {
    pub(crate) bytes: [u8; 12],
    // The place of the next one.
    pub(crate) next: usize,
    // How many bytes there is room for, at most 12.
    pub(crate) room: usize,
    // Whether it fails at the end of the room.
    pub(crate) is_broken: bool,
}

impl Read for Few {
    fn read(&mut self, buf: &mut [u8]) -> io::Result<usize> {
        let left = self.bytes.get(self.next..self.room).unwrap_or(&[]);
        if left.is_empty() && self.is_broken {
            return Err(io::Error::from(io::ErrorKind::Other));
        }
        let count = left.len().min(3).min(buf.len());
        buf[..count].copy_from_slice(&left[..count]);
        self.next = self.next.saturating_add(count);
        Ok(count)
    }
}

impl Write for Few {
    fn write(&mut self, buf: &[u8]) -> io::Result<usize> {
        let left = self.bytes.get_mut(self.next..self.room).unwrap_or(&mut []);
        if left.is_empty() && self.is_broken {
            return Err(io::Error::from(io::ErrorKind::Other));
        }
        let count = left.len().min(2).min(buf.len());
        left[..count].copy_from_slice(&buf[..count]);
        self.next = self.next.saturating_add(count);
        Ok(count)
    }

    fn flush(&mut self) -> io::Result<()> {
        Ok(())
    }
}

// The answer of calls that no test makes.
fn unsupported<T>() -> io::Result<T> {
    Err(io::Error::from(io::ErrorKind::Unsupported))
}

impl Seek for Few {
    fn seek(&mut self, _to: SeekFrom) -> io::Result<u64> {
        unsupported()
    }
}

impl OpenFile for Few {
    fn metadata(&self) -> io::Result<Metadata> {
        unsupported()
    }

    fn set_len(&self, _size: u64) -> io::Result<()> {
        unsupported()
    }

    fn sync_all(&self) -> io::Result<()> {
        unsupported()
    }

    fn sync_data(&self) -> io::Result<()> {
        unsupported()
    }
}

impl Files for Few {
    type File = Few;

    type Dir = Few;

    fn open_file(&self, _how: &OpenOptions, _path: &str) -> io::Result<Few> {
        Ok(*self)
    }

    fn open_dir(&self, _path: &str) -> io::Result<Few> {
        unsupported()
    }

    fn metadata(&self, _path: &str) -> io::Result<Metadata> {
        unsupported()
    }

    fn symlink_metadata(&self, _path: &str) -> io::Result<Metadata> {
        unsupported()
    }

    fn copy(&self, _from: &str, _to: &str) -> io::Result<u64> {
        unsupported()
    }

    fn rename(&self, _from: &str, _to: &str) -> io::Result<()> {
        unsupported()
    }

    fn remove_file(&self, _path: &str) -> io::Result<()> {
        unsupported()
    }

    fn create_dir(&self, _path: &str) -> io::Result<()> {
        unsupported()
    }

    fn remove_dir(&self, _path: &str) -> io::Result<()> {
        unsupported()
    }

    fn remove_dir_all<B: Allocator>(&self, _alloc: B, _path: &str) -> io::Result<()> {
        unsupported()
    }
}
