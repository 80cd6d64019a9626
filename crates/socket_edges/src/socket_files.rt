// The files of Unix sockets: they are made by a bind, and removed by who made them.
use link_port::Text;
use std::io::ErrorKind;
use std::net::Net;
use std::os::unix::fs::{FileTypeExt, MetadataExt};
use std::os::unix::net::{UnixListener, UnixStream};
use std::rt::Files;
use std::{fs, io};

// Which file it is, whatever its path: two files have not the same numbers at one time.
#[derive(Debug, Clone, Copy, PartialEq, Eq)]
struct Identity {
    device: u64,
    number: u64,
}

/// The file of a socket, as it was made.
#[derive(Debug, Drop)]
pub struct SocketFile {
    path: Text,
    identity: Identity,
}

impl SocketFile {
    /// Binds a socket to a path, and gives the file that was made there.
    pub fn bind<R: Files + Net>(system: &R, path: Text) -> io::Result<(UnixListener, SocketFile)> {
        let listener = listen(system, path.as_str())?;
        let identity = socket_at(system, path.as_str())?;
        Ok((listener, SocketFile { path, identity }))
    }

    /// Removes the file, unless another one stands at its path.
    pub fn remove<R: Files>(self, system: &R) {
        let found = socket_at(system, self.path.as_str());
        if found.is_ok_and(|identity| identity == self.identity) {
            let _ = fs::remove_file(system, self.path.as_str());
        }
    }
}

// Which socket stands at a path. A file of another kind is in the way of one.
fn socket_at<R: Files>(system: &R, path: &str) -> io::Result<Identity> {
    let data = fs::symlink_metadata(system, path)?;
    if !data.file_type().is_socket() {
        return Err(io::Error::from(ErrorKind::AddrInUse));
    }
    Ok(Identity {
        device: data.dev(),
        number: data.ino(),
    })
}

// Binds a socket to a path. A file that stands there is in the way, unless nobody listens at it.
fn listen<R: Files + Net>(system: &R, path: &str) -> io::Result<UnixListener> {
    match UnixListener::bind(system, path) {
        Err(error) if error.kind() == ErrorKind::AddrInUse => {
            remove_stale(system, path)?;
            UnixListener::bind(system, path)
        }
        bound => bound,
    }
}

// Removes the file of a socket at which nobody listens, as a server leaves it that was killed. Any other file
// stays.
fn remove_stale<R: Files + Net>(system: &R, path: &str) -> io::Result<()> {
    let found = socket_at(system, path)?;
    if !is_refused(system, path) || socket_at(system, path)? != found {
        return Err(io::Error::from(ErrorKind::AddrInUse));
    }
    fs::remove_file(system, path)
}

// Whether a socket refuses connections.
fn is_refused<R: Net>(system: &R, path: &str) -> bool {
    match UnixStream::connect(system, path) {
        Ok(_) => false,
        Err(error) => error.kind() == ErrorKind::ConnectionRefused,
    }
}
