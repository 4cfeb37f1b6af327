//! Makes files for rows in the real folder.
use crate::answers::number;
use std::io::{PipeReader, PipeWriter};
use std::os::fd::AsRawFd;
use std::os::unix::fs::{PermissionsExt, symlink};
use std::{fs, io};

/// The two ends of a pipe. While both are open, a read of it waits.
pub type Pipe = (PipeReader, PipeWriter);

/// Makes what a row asks for.
pub fn made(rt: &HostRuntime, pipe: &Pipe, row: &[&str]) -> io::Result<String> {
    match row {
        ["folder", path] => fs::create_dir(rt, path),
        ["link", target, path] => symlink(rt, *target, *path),
        ["pipe", path] => link_pipe(rt, pipe, path),
        ["files", path, count] => fill(rt, path, number(count)),
        ["closed", path] => set_mode(rt, path, 0),
        ["open", path] => set_mode(rt, path, 0o700),
        _ => Err(io::Error::from(io::ErrorKind::InvalidInput)),
    }?;
    Ok(String::from_str(rt.alloc(), "made")?)
}

// Makes a link to the pipe.
fn link_pipe(rt: &HostRuntime, pipe: &Pipe, path: &str) -> io::Result<()> {
    let target = format!(in rt.alloc(); "/proc/self/fd/{}", pipe.0.as_raw_fd())?;
    symlink(rt, target.as_str(), path)
}

// Makes so many empty files in a folder.
fn fill(rt: &HostRuntime, path: &str, count: u64) -> io::Result<()> {
    for number in 0..count {
        let file = format!(in rt.alloc(); "{path}/{number}")?;
        fs::write(rt, file.as_str(), "")?;
    }
    Ok(())
}

// Sets what the owner may do with a file or a folder.
fn set_mode(rt: &HostRuntime, path: &str, mode: u32) -> io::Result<()> {
    fs::set_permissions(rt, path, fs::Permissions::from_mode(mode))
}
