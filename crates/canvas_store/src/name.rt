//! The name of a document at a store.
ghost use Rattle.std.specs.Prelude.{◌≡◌, IfSome, IsTrue, true};
ghost use Rattle.canvas_store.specs.Names.{IsName, is_name_byte};

/// The most bytes of a name.
const MOST_NAME: usize = 63;

/// The name that the last part of a folder's path is: 1 to 63 small letters, digits and hyphens,
/// the first of them no hyphen. `None` where it is no name.
pub fn name_of(folder: &str) -> Option<&str>
    ensures { IfSome result (λ name. IsName name.now) }
{
    let folder = folder.trim_end_matches('/');
    let name = match folder.rsplit_once('/') {
        Some((_, name)) => name,
        None => folder,
    };
    if is_name(name.as_bytes()) {
        Some(name)
    } else {
        None
    }
}

fn is_name(bytes: &[u8]) -> bool
    ensures { IsTrue result → IsName bytes.now }
{
    let [first, ..] = bytes else {
        return false;
    };
    bytes.len() <= MOST_NAME && *first != b'-' && bytes.iter().all(|byte| is_name_byte(*byte))
}

fn is_name_byte(byte: u8) -> bool
    ensures { result ≡ is_name_byte byte }
{
    byte.is_ascii_lowercase() || byte.is_ascii_digit() || byte == b'-'
}
