//! Writing a P6 file.

ghost use Rattle.std.specs.Prelude.{◌≡◌, ◌+◌, ◌≤◌, ◌++◌, ◌*◌, length, decimal, vec_capacity, IfOk, Ok};
ghost use Rattle.canvas_ppm.specs.P6.{IsSide, IsRaster, header_of, p6_of};
ghost use Rattle.canvas_ppm.specs.Image.{image_of};

use arrayvec::ArrayString;
use canvas_code::OutOfMemory;
use itoa::Buffer;
use std::alloc::Global;

/// The text before the raster: at most 19 bytes, held without an allocation.
pub type Header = ArrayString<19>;

/// The header of a picture `w` pixels wide and `h` pixels high (Netpbm's ppm manual).
///
/// For callers that make the raster in place: a P6 file is its header and then its raster.
pub fn header(w: u32, h: u32) -> Header
    requires width { IsSide w }
    requires height { IsSide h }
    ensures { result.bytes ≡ header_of w h }
{
    let mut header = Header::new();
    header.push_str("P6\n");
    push_side(&mut header, w);
    header.push_str(" ");
    push_side(&mut header, h);
    header.push_str("\n255\n");
    header
}

// Appends a side in decimal, which takes at most five digits.
#[tactic(auto, using(crate::proofs::Sides::side_digits))]
fn push_side(header: &mut Header, side: u32)
    requires side { IsSide side }
    requires room { length header.old.bytes + 5 ≤ 19 }
    ensures bytes { header.new.bytes ≡ header.old.bytes ++ decimal side }
    ensures len { length header.new.bytes ≤ length header.old.bytes + 5 }
{
    let mut digits = Buffer::new();
    header.push_str(digits.format(side));
}

/// The header of a picture, with room for all of its raster: what is appended up to `3 * w * h` bytes
/// allocates no more.
pub fn start(alloc: Global, w: u32, h: u32) -> Result<Vec<u8>, OutOfMemory>
    requires width { IsSide w }
    requires height { IsSide h }
    ensures bytes { IfOk result (λ file. file.items ≡ header_of w h) }
    ensures room { IfOk result (λ file. length (header_of w h) + 3 * w * h ≤ vec_capacity file) }
{
    let header = header(w, h);
    let raster_len = 3 * w as usize * h as usize;
    let mut file = Vec::with_capacity(alloc, header.len() + raster_len)?;
    file.extend_from_slice(header.as_bytes())?;
    Ok(file)
}

/// The P6 file of a picture of `w` by `h` pixels: `raster` holds its rows from top to bottom,
/// pixels from left to right, each as red, green and blue, a byte per sample (Netpbm's ppm manual).
/// One allocation, of the file's size.
#[tactic(auto, using(crate::proofs::Files::read_back))]
pub fn write(alloc: Global, w: u32, h: u32, raster: &[u8]) -> Result<Vec<u8>, OutOfMemory>
    requires width { IsSide w }
    requires height { IsSide h }
    requires raster { IsRaster w h raster.now }
    ensures bytes { IfOk result (λ file. file.items ≡ p6_of w h raster.now) }

    // What is written is read back.
    ensures read_back { IfOk result
        (λ file. image_of file.items ≡ Ok (record { w = w; h = h; raster = raster.now })) }
{
    let mut file = start(alloc, w, h)?;
    file.extend_from_slice(raster)?;
    Ok(file)
}
