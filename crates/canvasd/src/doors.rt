//! The doors of the server, at the addresses that the words name.

use crate::addresses::{Address, address_of};
use crate::fault::{Deed, Fault, Place, refused};
use canvas_doors::Door;
use std::alloc::Global;
use std::io::ErrorKind;
use std::net::{Net, TcpListener, TcpStream};
use std::os::unix::fs::FileTypeExt;
use std::os::unix::net::{UnixListener, UnixStream};
use std::rt::Files;
use std::{fs, io};

/// A door at each address. Each address is one of a kind of places.
pub fn bind_all<H: Files + Net<Listener = TcpListener, Stream = TcpStream>, P: Fn(usize) -> Place>(
    rt: &H,
    alloc: Global,
    addresses: &[&str],
    place: P,
) -> Result<Vec<Door>, Fault>
    requires { P.IsAlwaysCallable place }
{
    let mut doors = Vec::new(alloc);
    for (index, word) in addresses.iter().enumerate() {
        let door = match bind(rt, word) {
            Ok(door) => door,
            Err(error) => return Err(refused(place(index), Deed::Use, error)),
        };
        doors.push(door)?;
    }
    Ok(doors)
}

fn bind<H: Files + Net<Listener = TcpListener, Stream = TcpStream>>(
    rt: &H,
    word: &str,
) -> io::Result<Door> {
    match address_of(word) {
        Address::Tcp(address) => Ok(Door::Tcp(TcpListener::bind(rt, address)?)),
        // The system would choose a name of its own.
        Address::Unix("") => Err(ErrorKind::InvalidInput.into()),
        Address::Unix(path) => Ok(Door::Unix(bind_path(rt, path)?)),
    }
}

// Binds a path. A socket at which nobody listens any more is what an ended server left: it makes way.
fn bind_path<H: Files + Net>(rt: &H, path: &str) -> io::Result<UnixListener> {
    let error = match UnixListener::bind(rt, path) {
        Ok(listener) => return Ok(listener),
        Err(error) => error,
    };
    if error.kind() != ErrorKind::AddrInUse || !is_socket(rt, path) || !is_deserted(rt, path) {
        return Err(error);
    }
    fs::remove_file(rt, path)?;
    UnixListener::bind(rt, path)
}

fn is_socket<H: Files>(rt: &H, path: &str) -> bool {
    match fs::symlink_metadata(rt, path) {
        Ok(metadata) => metadata.file_type().is_socket(),
        Err(_) => false,
    }
}

fn is_deserted<H: Net>(rt: &H, path: &str) -> bool {
    match UnixStream::connect(rt, path) {
        Ok(_) => false,
        Err(error) => error.kind() == ErrorKind::ConnectionRefused,
    }
}

/// Says at which address each door is: sessions come to the first ones, and followers to those behind them.
pub fn tell_doors<H: Print>(
    rt: &H,
    doors: &[Door],
    addresses: &[&str],
    sessions: usize,
) -> Result<(), Fault> {
    for (index, (door, word)) in doors.iter().zip(addresses).enumerate() {
        let deed = if index < sessions {
            "listening"
        } else {
            "feeding"
        };
        if let Err(error) = tell_door(rt, deed, door, word) {
            return Err(refused(Place::Output, Deed::Write, error));
        }
    }
    Ok(())
}

/// Says at which address each door is where the status is told.
pub fn tell_status_doors<H: Print>(
    rt: &H,
    doors: &[Door],
    addresses: &[&str],
) -> Result<(), Fault> {
    for (door, word) in doors.iter().zip(addresses) {
        if let Err(error) = tell_door(rt, "status", door, word) {
            return Err(refused(Place::Output, Deed::Write, error));
        }
    }
    Ok(())
}

fn tell_door<H: Print>(rt: &H, deed: &str, door: &Door, word: &str) -> io::Result<()> {
    match door {
        Door::Tcp(listener) => println!(rt; "{deed} on {}", listener.local_addr()?),
        Door::Unix(_) => println!(rt; "{deed} on {word}"),
    }
}
