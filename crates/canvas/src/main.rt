//! The program `canvas`: one design document, edited and looked at by lines of JSON.
//!
//! `canvas script [workers]` serves standard input to standard output, beginning with an empty
//! document. `canvas serve <address> <file> [workers]` serves a saved document to the connections
//! that come to an address.
#![tactic(auto)]

ghost use Rattle.std.specs.Prelude.{◌≡◌, [], IfOk, Ok};
ghost use Rattle.canvas_board.specs.Alone.{alone_board};
ghost use Rattle.canvas_look.specs.Seen.{Seen};
ghost use Rattle.canvas_session.specs.Session.{Serves};
ghost use Rattle.canvas_look.specs.Fault.{board_fault_code};
ghost use Rattle.canvas_session.specs.Cause.{cause_code};
ghost use Rattle.canvas_saved.specs.Faults.{fault_code as store_fault_code};
ghost use Rattle.canvas.specs.declared.Fault.TheVariants.{Refused};
ghost use Rattle.canvas_server.specs.Faults.{server_fault_code};
ghost use Rattle.canvas.specs.Statuses.{fault_of_code, status_at};

mod opening;

use canvas_board::Alone;
use canvas_code::Coded;
use canvas_doc::Document;
use canvas_look::BoardFault;
use canvas_saved::StoreFault;
use canvas_server::{Command, ServerFault, Settings, exit_status, serve_connections};
use canvas_session::{Served, SessionFault, serve};
use opening::read_document;
use std::alloc::{AllocError, AllocFailed, Global};
use std::fs::{File, Files};
use std::io::{BufWriter, Read, Write};
use std::net::{Net, TcpListener, TcpStream};
use std::process::ExitCode;
use std::sync::Wait;
use std::thread::Threads;
use std::time::Clock;
use std::{env, io};

const USAGE: &str = "usage: canvas script [workers] | canvas serve <address> <file> [workers]";

/// How many changes the document takes.
const LIMIT: u64 = 1_000_000;

/// How many sessions a server has at once.
const SEATS: u32 = 63;

/// How many pictures are kept for each seat; all seats share them.
const KEEP: u32 = 8;

/// Why the program ends other than by the end of its input.
#[derive(Clone, Copy, Debug)]
enum Fault {
    Usage,
    /// A refusal with its code.
    Refused(u16),
    /// A fault of input or output that has no code.
    Io,
}

impl From<BoardFault> for Fault {
    ghost from_gives = { λ error fault. fault ≡ Refused (board_fault_code error) };

    fn from(refusal: BoardFault) -> Fault {
        Fault::Refused(refusal.code())
    }
}

impl From<SessionFault> for Fault {
    ghost from_gives = { λ error fault. fault ≡ Refused (cause_code error.cause) };

    fn from(fault: SessionFault) -> Fault {
        Fault::Refused(fault.code())
    }
}

impl From<StoreFault> for Fault {
    ghost from_gives = { λ error fault. fault ≡ Refused (store_fault_code error) };

    fn from(why: StoreFault) -> Fault {
        Fault::Refused(why.code())
    }
}

impl From<ServerFault> for Fault {
    ghost from_gives = { λ error fault. fault ≡ fault_of_code (server_fault_code error) };

    fn from(fault: ServerFault) -> Fault {
        match fault.code() {
            Some(code) => Fault::Refused(code),
            None => Fault::Io,
        }
    }
}

impl From<AllocError> for Fault {
    ghost from_gives = { λ _ fault. fault ≡ Refused 1 };

    fn from(_error: AllocError) -> Fault {
        Fault::Refused(1)
    }
}

impl<T: Drop> From<AllocFailed<T>> for Fault {
    ghost from_gives = { λ _ fault. fault ≡ Refused 1 };

    fn from(_error: AllocFailed<T>) -> Fault {
        Fault::Refused(1)
    }
}

impl From<io::Error> for Fault {
    fn from(error: io::Error) -> Fault {
        match error.kind() {
            io::ErrorKind::OutOfMemory => Fault::Refused(1),
            _ => Fault::Io,
        }
    }
}

fn main(rt: HostRuntime) -> ExitCode {
    let words = match given_words(&rt) {
        Ok(words) => words,
        Err(fault) => return ended_by(&rt, &fault),
    };
    let end = match command_of(rt.alloc(), &words) {
        Err(fault) => Err(fault),
        Ok(Command::Script { workers }) => {
            script(&rt, rt.alloc(), workers, &mut rt.stdin(), rt.stdout())
        }
        Ok(
            Command::Serve {
                address,
                file,
                workers,
            },
        ) => serve_file(&rt, rt.alloc(), address, file, workers),
    };
    match end {
        Ok(()) => ExitCode::SUCCESS,
        Err(fault) => ended_by(&rt, &fault),
    }
}

/// Says why the program ends, and answers its status.
fn ended_by(rt: &HostRuntime, fault: &Fault) -> ExitCode {
    // Where standard error takes nothing either, the status alone says what was wrong.
    let _ = report(rt, fault);
    ExitCode::from(status(fault))
}

/// The words behind the program's name. A word that is not UTF-8 is no command.
fn given_words(rt: &HostRuntime) -> Result<Vec<String>, Fault> {
    let mut words = Vec::new(rt.alloc());
    let given = match env::args(rt) {
        Ok(given) => given,
        Err(error) if error.kind() == io::ErrorKind::InvalidData => return Err(Fault::Usage),
        Err(error) => return Err(error.into()),
    };
    for word in given.skip(1) {
        words.push(word)?;
    }
    Ok(words)
}

/// The command that the words name.
fn command_of(alloc: Global, words: &[String]) -> Result<Command<'_>, Fault> {
    let texts: Vec<&str> = words.iter().map(|word| word.as_str()).collect(alloc)?;
    Command::read(&texts).ok_or(Fault::Usage)
}

/// Serves a reader to an output over a document of its own, in large pieces.
fn script<H: Threads + Wait + Sync, R: Read, W: Write + Drop>(
    rt: &H,
    alloc: Global,
    workers: u32,
    reader: &mut R,
    output: W,
) -> Result<(), Fault> {
    let mut writer = BufWriter::new(alloc, output)?;
    serve_empty(rt, alloc, workers, reader, &mut writer)?;
    Ok(())
}

/// Serves a reader to a writer over a document of its own, which begins empty.
fn serve_empty<H: Threads + Wait + Sync, R: Read, W: Write>(
    rt: &H,
    alloc: Global,
    workers: u32,
    reader: &mut R,
    writer: &mut W,
) -> Result<Served, Fault>
    ensures { IfOk result (λ served. (after : Seen) × Serves workers (record {
      input = R.remaining reader.old;
      unread = R.remaining reader.new;
      held = W.contents writer.old;
      output = W.contents writer.new;
      before = alone_board (record { records = []; next = 1 }) 1000000 [];
      after = after;
    }) (Ok served)) }
{
    let mut board = empty_board(alloc)?;
    Ok(serve(rt, alloc, &mut board, workers, reader, writer)?)
}

/// The board of one caller over an empty document.
fn empty_board(alloc: Global) -> Result<Alone, Fault>
    ensures { IfOk result
        (λ board. board ≡ alone_board (record { records = []; next = 1 }) 1000000 []) }
{
    Ok(Alone::new(alloc, Document::empty(alloc), LIMIT)?)
}

/// Serves the document of a file at an address, without end.
fn serve_file<
    H: Files
        + Print
        + Threads
        + Wait
        + Clock
        + Sync
        + Net<Listener = TcpListener, Stream = TcpStream>,
>(rt: &H, alloc: Global, address: &str, file: &str, workers: u32) -> Result<(), Fault> {
    let document = read_document(alloc, File::open(rt, file)?)?;
    let listener = TcpListener::bind(rt, address)?;
    println!(rt; "listening")?;
    let settings = Settings {
        seats: SEATS,
        limit: LIMIT,
        keep: KEEP,
        workers,
        connections: 0,
    };
    serve_connections(rt, alloc, &listener, document, &settings)?;
    Ok(())
}

fn report(rt: &HostRuntime, fault: &Fault) -> io::Result<()> {
    match fault {
        Fault::Usage => eprintln!(rt; "{USAGE}"),
        Fault::Refused(code) => eprintln!(rt; "canvas: {code} {}", canvas_code::name_of(*code)),
        Fault::Io => eprintln!(rt; "canvas: input or output fault"),
    }
}

/// The status with which the program ends at a fault.
fn status(fault: &Fault) -> u8
    ensures { result ≡ status_at fault.now }
{
    match fault {
        Fault::Usage => 2,
        Fault::Refused(code) => exit_status(Some(*code)),
        Fault::Io => exit_status(None),
    }
}
