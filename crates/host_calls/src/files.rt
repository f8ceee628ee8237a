// A cartridge file: its header, and both buffers filled from it. These calls need no board.
ghost use Rattle.std.specs.Prelude.{◌≡◌, length};
ghost use Rattle.cartridge_header.specs.Ines.{read_header};
ghost use Rattle.host_cartridge.specs.Encoded.{header_encoded};
ghost use Rattle.host_cartridge.specs.Filled.{changing_filled, fill_refusal, fixed_filled};

use base_shared::answer_number;
use host_cartridge::{EncodedCartridge, encode_header, fill_from_file};

pub fn vrc6_read_header(file: &[u8]) -> EncodedCartridge
    ensures { result ≡ header_encoded (read_header file.now) }
{
    encode_header(file)
}

// The answer is the refusal's number. Refused, both buffers stay as they were.
pub fn vrc6_fill(file: &[u8], fixed: &mut [u8], changing: &mut [u8]) -> u8
    ensures value { result ≡ fill_refusal file.now (length fixed.old) (length changing.old) }
    ensures fixed_after { fixed.new ≡ fixed_filled file.now fixed.old changing.old }
    ensures changing_after { changing.new ≡ changing_filled file.now fixed.old changing.old }
{
    answer_number(fill_from_file(file, fixed, changing))
}
