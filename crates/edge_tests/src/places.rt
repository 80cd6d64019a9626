// Where the tests listen: folders of their own, and ports that are free.
use link_doors::Address;
use link_port::Text;
use std::alloc::Global;
use std::net::{Net, OpenListener, SocketAddr, TcpListener};
use std::rt::{Files, Process};
use std::{fs, io, process};

/// A folder of a test's own, and a path in it. Removing it fails while a file is left in it.
#[derive(Drop)]
pub struct Place {
    folder: String,
    pub path: String,
}

impl Place {
    /// A new folder, named for a test of this process.
    pub fn new<R: Files>(
        system: &R,
        alloc: Global,
        process: Process,
        test: &str,
    ) -> io::Result<Place> {
        let number = process::id(process);
        let folder = format!(in alloc; "/tmp/varlink-edges-{number}-{test}")?;
        fs::create_dir(system, folder.as_str())?;
        match format!(in alloc; "/tmp/varlink-edges-{number}-{test}/here") {
            Ok(path) => Ok(Place { folder, path }),
            Err(error) => {
                drop(folder);
                Err(error.into())
            }
        }
    }

    /// The address of a socket at the path.
    pub fn address(&self, alloc: Global) -> io::Result<Address> {
        match Text::of(alloc, self.path.as_str()) {
            Ok(path) => Ok(Address::Unix(path)),
            Err(_) => Err(io::Error::from(io::ErrorKind::OutOfMemory)),
        }
    }

    /// Removes the folder. It fails where a file is left in it.
    pub fn remove<R: Files>(self, system: &R) -> bool {
        fs::remove_dir(system, self.folder.as_str()).is_ok()
    }
}

/// An address of this machine at which nobody listens.
pub fn free_port<R: Net>(system: &R) -> io::Result<Address> {
    let listener = TcpListener::bind(system, "127.0.0.1:0")?;
    let found = listener.local_addr()?;
    Ok(Address::Tcp {
        ip: [127, 0, 0, 1],
        port: found.port(),
    })
}
