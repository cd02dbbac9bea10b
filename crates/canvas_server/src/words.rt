//! The words of the command line, and the statuses with which the program ends.

ghost use Rattle.std.specs.Prelude.{◌≡◌};
ghost use Rattle.canvas_server.specs.Statuses.{status_of};
ghost use Rattle.canvas_server.specs.Words.{command_named, script_named, serve_named, workers_asked, workers_named};

/// What the program is asked for.
#[derive(Clone, Copy, Debug, PartialEq, Eq)]
pub enum Command<'a> {
    /// Serves standard input to standard output, with so many workers for a picture.
    Script {
        workers: u32,
    },
    /// Serves a saved document to the connections that come to an address, with so many workers for
    /// a picture.
    Serve {
        address: &'a str,
        file: &'a str,
        workers: u32,
    },
}

/// The workers where the words name none.
const DEFAULT_WORKERS: u32 = 2;

impl<'a> Command<'a> {
    /// Reads the words behind the program's name. `None` is a fault of usage.
    pub fn read(words: &[&'a str]) -> Option<Command<'a>>
        ensures { result ≡ command_named words.now }
    {
        let (verb, rest) = words.split_first()?;
        match *verb {
            "script" => script_of(rest),
            "serve" => serve_of(rest),
            _ => None,
        }
    }
}

// A run over standard input, of the words behind its verb.
fn script_of<'a>(words: &[&'a str]) -> Option<Command<'a>>
    ensures { result ≡ script_named words.now }
{
    let workers = workers_asked(words)?;
    Some(Command::Script { workers })
}

// A server, of the words behind its verb.
fn serve_of<'a>(words: &[&'a str]) -> Option<Command<'a>>
    ensures { result ≡ serve_named words.now }
{
    match words {
        [address, file, rest @ ..] => Some(Command::Serve {
            address,
            file,
            workers: workers_asked(rest)?,
        }),
        _ => None,
    }
}

// The workers that no word or one word asks for.
fn workers_asked(words: &[&str]) -> Option<u32>
    ensures { result ≡ workers_asked words.now }
{
    match words {
        [] => Some(DEFAULT_WORKERS),
        [number] => workers_of(number),
        _ => None,
    }
}

// A number of workers, 1 to 16: one or two decimal digits without a leading zero.
fn workers_of(word: &str) -> Option<u32>
    ensures { result ≡ workers_named word.now }
{
    match word.as_bytes() {
        [ones @ b'1'..=b'9'] => Some(u32::from(*ones - b'0')),
        [b'1', ones @ b'0'..=b'6'] => Some(10 + u32::from(*ones - b'0')),
        _ => None,
    }
}

/// The status with which the program ends at a fault: 3 where a document was refused, 5 at want of
/// memory and where a reader of the line or a view could not be had, else 4. A fault of input or
/// output has no code.
pub fn exit_status(code: Option<u16>) -> u8
    ensures { result ≡ status_of code }
{
    match code {
        Some(50 | 60 | 61 | 62) => 3,
        Some(1 | 19 | 33) => 5,
        _ => 4,
    }
}
