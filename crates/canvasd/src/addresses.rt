//! Addresses, as words name them.
ghost use Rattle.canvasd.specs.Addresses.{Names};

/// Where connections come.
#[derive(Clone, Copy, Debug, PartialEq, Eq)]
pub enum Address<'a> {
    /// A host and a port.
    Tcp(&'a str),
    /// A path on this machine.
    Unix(&'a str),
}

/// Whether a word names an address to which a connection can be asked for: `unix:` and a path, or a
/// host, a colon and a port of 0 to 65,535.
pub fn is_address(word: &str) -> bool {
    match address_of(word) {
        Address::Unix(path) => !path.is_empty(),
        Address::Tcp(address) => match address.rsplit_once(":") {
            Some((host, port)) => !host.is_empty() && port.parse::<u16>().is_ok(),
            None => false,
        },
    }
}

/// The address that a word names: a path behind `unix:`, else a host and a port.
pub fn address_of(word: &str) -> Address<'_>
    ensures { Names word.now result }
{
    match word.strip_prefix("unix:") {
        Some(path) => Address::Unix(path),
        None => Address::Tcp(word),
    }
}
