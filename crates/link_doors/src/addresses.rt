// The addresses at which services are found.
ghost use Rattle.std.specs.Prelude.{◌≡◌, ◌<◌, IfOk};
ghost use Rattle.link_doors.specs.Addresses.{GivesAddress, AddressesAre, AddressesReadBack};
ghost use Rattle.link_doors.specs.Addresses.{address_of, address_text, path_of, tcp_of};
ghost use Rattle.link_doors.specs.Addresses.{octets_of, port_of, before, behind};

use link_port::{Memory, Text};
use std::alloc::Global;
use std::error::Error;
use std::fmt;
use std::net::Ipv4Addr;

/// The address of a service (varlink.org, "Varlink Address").
#[derive(Debug, Drop)]
pub enum Address {
    /// The path of a Unix socket.
    Unix(Text),
    /// A port of an IPv4 address.
    Tcp {
        /// The address, its first number first.
        ip: [u8; 4],
        /// The port.
        port: u16,
    },
}

/// Why a text was not read as an address.
#[derive(Debug, Clone, Copy, PartialEq, Eq)]
pub enum AddressFault {
    /// It is no address.
    BadAddress,
    /// Memory was asked for and not granted.
    Memory,
}

impl From<Memory> for AddressFault {
    ghost use Rattle.std.specs.Prelude.{◌≡◌};
    ghost use Rattle.link_doors.specs.declared.addresses.AddressFault.TheVariants as fault;

    ghost from_gives = { λ _ made. made ≡ fault.Memory };

    fn from(_memory: Memory) -> AddressFault {
        AddressFault::Memory
    }
}

impl fmt::Display for AddressFault {
    ghost use Rattle.std.specs.Prelude.{Some};
    ghost use Rattle.link_doors.specs.Addresses.{fault_text};

    ghost output = { λ fault. Some (fault_text fault) };

    fn fmt<W: fmt::Write>(&self, f: &mut fmt::Formatter<W>) -> fmt::Result {
        match self {
            AddressFault::BadAddress => f.write_str("bad address"),
            AddressFault::Memory => f.write_str("out of memory"),
        }
    }
}

impl Error for AddressFault {}

impl Address {
    /// Reads an address. What stands from its first `;` on is ignored.
    ///
    /// It is `unix:` and a path that is not empty, does not begin with `@` and holds no NUL, or
    /// `tcp:`, four numbers up to 255 with dots between them, `:` and a port from 1 to 65535, all
    /// without leading zeros. It is `BadAddress` exactly where the text is neither.
    pub fn read(alloc: Global, text: &str) -> Result<Address, AddressFault>
        ensures { GivesAddress (address_of text.now) result }
    {
        let (named, _) = parted(text, ';');
        let (scheme, rest) = parted(named, ':');
        match scheme {
            "unix" => unix(alloc, rest),
            "tcp" => tcp(rest),
            _ => Err(AddressFault::BadAddress),
        }
    }

    /// The text of the address.
    pub fn text(&self, alloc: Global) -> Result<Text, Memory>
        ensures { IfOk result (λ text. text ≡ address_text self.now) }
    {
        let text = match self {
            Address::Unix(path) => format!(in alloc; "unix:{}", path.as_str())?,
            Address::Tcp { ip, port } => {
                let ip = Ipv4Addr::from_octets(*ip);
                format!(in alloc; "tcp:{ip}:{port}")?
            }
        };
        Text::of(alloc, text.as_str())
    }
}

/// Which text is which address.
pub fn addresses_are()
    ensures { AddressesAre }
{}

/// An address that was read is read again from its text.
pub fn addresses_read_back()
    ensures { AddressesReadBack }
{}

// What stands before the first `mark`, a character of ASCII, and what stands behind it.
fn parted(text: &str, mark: char) -> (&str, &str)
    requires { mark < 128 }
    ensures before { result.0.now ≡ before mark text.now }
    ensures behind { result.1.now ≡ behind mark text.now }
{
    match text.split_once(mark) {
        Some(parts) => parts,
        None => (text, ""),
    }
}

// The address of a Unix socket.
fn unix(alloc: Global, path: &str) -> Result<Address, AddressFault>
    ensures { GivesAddress (path_of path.now) result }
{
    if path.is_empty() || path.starts_with('@') || path.as_bytes().contains(&0) {
        return Err(AddressFault::BadAddress);
    }
    Ok(Address::Unix(Text::of(alloc, path)?))
}

// The address of a port of an IPv4 address.
fn tcp(place: &str) -> Result<Address, AddressFault>
    ensures { GivesAddress (tcp_of place.now) result }
{
    let (ip, port) = parted(place, ':');
    match (octets(ip), port_number(port)) {
        (Some(ip), Some(port)) => Ok(Address::Tcp { ip, port }),
        _ => Err(AddressFault::BadAddress),
    }
}

// The numbers of an IPv4 address.
fn octets(ip: &str) -> Option<[u8; 4]>
    ensures { result ≡ octets_of ip.now }
{
    match ip.parse::<Ipv4Addr>() {
        Ok(ip) => Some(ip.octets()),
        Err(_) => None,
    }
}

// The number of a port: a number without a sign and leading zeros, and not 0.
fn port_number(port: &str) -> Option<u16>
    ensures { result ≡ port_of port.now }
{
    if port.starts_with('+') || port.starts_with('0') {
        return None;
    }
    match port.parse::<u16>() {
        Ok(port) => Some(port),
        Err(_) => None,
    }
}
