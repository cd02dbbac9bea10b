//! Reading a P6 file.

ghost use Rattle.std.specs.Prelude.{◌≡◌, ◌<◌, ◌≤◌, ◌*◌, ◌⊎◌, ◌↔◌, ℕ, List, length, slice_index, IsTrue, IsOk, IfOk, IfErr, IfSome, Ok, Err};
ghost use Rattle.std.specs.Char.{is_ascii_digit};
ghost use Rattle.std.specs.List.{prefix_len};
ghost use Rattle.std.specs.Option.{option_map};
ghost use Rattle.std.specs.Str.Parse.{digits_value};
ghost use Rattle.canvas_ppm.specs.Header.{is_white, white_len, digits_len, is_side, after_white, number_at, field_at, after_one_white, header_at};
ghost use Rattle.canvas_ppm.specs.Image.{Pixels, image_of, pixels_of};
ghost use Rattle.canvas_ppm.specs.File.{IsFile};

use super::PpmFault;
use std::alloc::Global;

/// A picture that was read.
#[derive(Debug, Drop)]
pub struct Image {
    /// Its width in pixels, 1 to 65,535.
    pub w: u32,

    /// Its height in pixels, 1 to 65,535.
    pub h: u32,

    /// Its rows from top to bottom, pixels from left to right, each as red, green and blue, a byte
    /// per sample.
    pub raster: Vec<u8>,
}

/// The picture of a P6 file: `P6`; white space; width; white space; height; white space; maxval;
/// one white-space byte; the raster, and nothing after it. White space is one or more of blank,
/// TAB, CR and LF, a number has one to nine digits, sides are 1 to 65,535 and maxval is 255.
/// Narrower than Netpbm's ppm manual, which allows comments, other maxvals and further images.
///
/// The fault is the first of NotP6, BadHeader, Truncated, TooLong that holds; OutOfMemory is
/// answered for a sound file alone.
#[tactic(auto, unfolding(crate::specs::Header::after_magic, crate::specs::Image::pixels_at, crate::specs::Image::image_of))]
pub fn read(alloc: Global, bytes: &[u8]) -> Result<Image, PpmFault>
    ensures image { IfOk result (λ image. image_of bytes.now ≡ Ok (pixels_of image)) }
    ensures fault { IfErr result (λ fault. (image_of bytes.now ≡ Err fault)
        ⊎ ((fault ≡ PpmFault.OutOfMemory) × IsOk (image_of bytes.now))) }
{
    let [b'P', b'6', rest @ ..] = bytes else {
        return Err(PpmFault::NotP6);
    };
    let Some((w, h, samples)) = header_at(rest) else {
        return Err(PpmFault::BadHeader);
    };
    let wanted = 3 * w as usize * h as usize;
    if samples.len() < wanted {
        return Err(PpmFault::Truncated);
    }
    if samples.len() > wanted {
        return Err(PpmFault::TooLong);
    }
    let raster = Vec::from_slice(alloc, samples)?;
    Ok(Image { w, h, raster })
}

// The sides, and what stands after the header.
#[tactic(auto, unfolding(crate::specs::Header::header_at))]
fn header_at(bytes: &[u8]) -> Option<(u32, u32, &[u8])>
    ensures header { option_map (λ x. (x.0, x.1, x.2.now)) result ≡ header_at bytes.now }
    ensures sides { IfSome result (λ x. (x.0 ≤ 65535) × (x.1 ≤ 65535)) }
{
    let (w, rest) = field_at(bytes)?;
    let (h, rest) = field_at(rest)?;
    let (maxval, rest) = field_at(rest)?;
    let rest = after_one_white(rest)?;
    if is_side(w) && is_side(h) && maxval == 255 {
        Some((w, h, rest))
    } else {
        None
    }
}

fn is_side(side: u32) -> bool
    ensures { result ≡ is_side side }
{
    1 <= side && side <= 65_535
}

// A number behind white space, and what stands after it.
#[tactic(auto, unfolding(crate::specs::Header::field_at))]
fn field_at(bytes: &[u8]) -> Option<(u32, &[u8])>
    ensures { option_map (λ x. (x.0, x.1.now)) result ≡ field_at bytes.now }
{
    let rest = after_white(bytes)?;
    number_at(rest)
}

// What stands after white space of at least one byte.
#[tactic(auto, unfolding(crate::specs::Header::after_white))]
fn after_white(bytes: &[u8]) -> Option<&[u8]>
    ensures { option_map (λ x. x.now) result ≡ after_white bytes.now }
{
    let count = white_len(bytes);
    if count == 0 {
        return None;
    }
    Some(&bytes[count..])
}

// How many bytes of white space stand at the front.
fn white_len(bytes: &[u8]) -> usize
    ensures counts { result ≡ white_len bytes.now }
    ensures within { result ≤ length bytes.now }
{
    bytes.iter().take_while(|byte| is_white(**byte)).count()
}

// What stands after one white-space byte.
#[tactic(auto, unfolding(crate::specs::Header::after_one_white))]
fn after_one_white(bytes: &[u8]) -> Option<&[u8]>
    ensures { option_map (λ x. x.now) result ≡ after_one_white bytes.now }
{
    match bytes {
        [first, rest @ ..] if is_white(*first) => Some(rest),
        _ => None,
    }
}

fn is_white(byte: u8) -> bool
    ensures { result ≡ is_white byte }
{
    matches!(byte, b' ' | b'\t' | b'\n' | b'\r')
}

// A number of one to nine digits, and what stands after it.
#[tactic(auto, unfolding(crate::specs::Header::number_at))]
fn number_at(bytes: &[u8]) -> Option<(u32, &[u8])>
    ensures { option_map (λ x. (x.0, x.1.now)) result ≡ number_at bytes.now }
{
    let count = digits_len(bytes);
    if count == 0 || count > 9 {
        return None;
    }
    Some((value_of(&bytes[..count]), &bytes[count..]))
}

// How many digits stand at the front.
fn digits_len(bytes: &[u8]) -> usize
    ensures counts { result ≡ digits_len bytes.now }
    ensures within { result ≤ length bytes.now }
{
    bytes
        .iter()
        .take_while(|byte| byte.is_ascii_digit())
        .count()
}

// The number that at most nine digits stand for.
fn value_of(digits: &[u8]) -> u32
    requires few { length digits.now ≤ 9 }
    requires digits { (k : ℕ) → k < length digits.now
        → IsTrue (is_ascii_digit (slice_index digits.now k)) }
    ensures { result ≡ digits_value 10 digits.now }
{
    let mut value = 0;
    for digit in digits {
        value = value * 10 + u32::from(*digit - b'0');
    }
    value
}

/// A law: bytes are read as an image exactly where they are a P6 file of it.
pub fn images_are_p6_files()
    ensures { (bytes : List ℕ) (image : Pixels) → (image_of bytes ≡ Ok image) ↔ IsFile bytes image }
{}
