// FNV-1a with 32 bits, the hash by which answers show many bytes.
ghost use Rattle.std.specs.Prelude.{◌≡◌};
ghost use Rattle.script_bytes.specs.Fnv.{fnv1a, fnv_byte, little_endian};

// The hash of no bytes.
pub const FNV_START: u32 = 0x811C_9DC5;

pub fn fnv_byte(hash: u32, byte: u8) -> u32
    ensures { result ≡ fnv_byte hash byte }
{
    (hash ^ u32::from(byte)).wrapping_mul(0x0100_0193)
}

pub fn fnv(hash: u32, bytes: &[u8]) -> u32
    ensures { result ≡ fnv1a hash bytes.now }
{
    bytes.iter().fold(hash, |h, byte| fnv_byte(h, *byte))
}

// The four bytes of a number, the lowest first.
pub fn fnv_word(hash: u32, n: u32) -> u32
    ensures { result ≡ fnv1a hash (little_endian n) }
{
    fnv(hash, &n.to_le_bytes())
}
