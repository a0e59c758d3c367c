// Names, and what stands at them.
ghost use Rattle.std.specs.Prelude.{◌<◌, length};

use std::fs::{File, OpenOptions};
use std::io::{Error, ErrorKind, Seek, SeekFrom};
use std::{fs, str};
use windows::front;

// A name as text. One that is no text comes out empty, and no file is named so.
pub(crate) fn text_of(name: &[u8]) -> &str {
    str::from_utf8(name).unwrap_or("")
}

// Whether a link stands at a name.
fn is_link(rt: HostRuntime, name: &str) -> bool {
    fs::symlink_metadata(&rt, name).is_ok_and(|found| found.is_symlink())
}

// Whether an open file is a regular one: it can be flushed to a disk, which is so of a disk itself as well, and it can grow, which is not.
fn is_regular(file: &mut File) -> bool {
    file.sync_all().is_ok() && file.seek(SeekFrom::End(1)).is_ok_and(|end| end > 0)
}

// Whether nothing stands at a name that could not be opened, by what the system says of it: there is no such file, a file where the name has a
// folder, or the name is longer than any.
fn is_nothing(error: &Error) -> bool {
    matches!(
        error.kind(),
        ErrorKind::NotFound | ErrorKind::NotADirectory | ErrorKind::InvalidFilename
    )
}

// Whether a name can be given to a new file: nothing stands there, or a regular file that may be written.
pub(crate) fn is_free(rt: HostRuntime, name: &str) -> bool {
    if is_link(rt, name) {
        return false;
    }
    match OpenOptions::new().read(true).write(true).open(&rt, name) {
        Ok(mut file) => is_regular(&mut file),
        Err(error) => is_nothing(&error),
    }
}

// Makes a new file, named with the first digit behind the name's other octets that is free.
pub(crate) fn new_file(rt: HostRuntime, name: &mut [u8], last: usize) -> Option<File>
    requires { last < length name.old }
{
    for digit in b'0'..=b'9' {
        name[last] = digit;
        let path = text_of(front(name, last + 1));
        match OpenOptions::new()
            .write(true)
            .create_new(true)
            .open(&rt, path)
        {
            Ok(file) => return Some(file),
            Err(error) if error.kind() == ErrorKind::AlreadyExists => {}
            Err(_) => return None,
        }
    }
    None
}
