// The bytes that fill the buffers before a board is created.
ghost use Rattle.std.specs.Prelude.{◌≡◌, length};
ghost use Rattle.script_bytes.specs.Fill.{fill_byte, filled};

// The byte at an offset that is counted from the fixed buffer on into the changing one.
pub fn fill_byte(offset: u32, seed: u32) -> u8
    ensures { result ≡ fill_byte offset seed }
{
    let x = offset.wrapping_mul(0x9E37_79B1).wrapping_add(seed);
    let y = x ^ (x >> 15);
    (y / 256 % 256) as u8
}

// Fills a part of a buffer that starts at the offset first.
pub fn fill(part: &mut [u8], first: u32, seed: u32)
    ensures { part.new ≡ filled (length part.old) first seed }
{
    for (i, byte) in part.iter_mut().enumerate() {
        let at = first.wrapping_add((i % 0x1_0000_0000) as u32);
        *byte = fill_byte(at, seed);
    }
}
