// Both buffers of a cartridge's layout, filled from its file.
ghost use Rattle.std.specs.Prelude.{◌≡◌, length};
ghost use Rattle.base_shared.specs.Numbers.{answer_number};
ghost use Rattle.host_cartridge.specs.Filled.{changing_filled, fill_refusal, fixed_filled};

use base_shared::Refusal;
use cartridge_header::read_header;

// A loop of its own: `copy_from_slice` would ask `memmove` of a host, which needs no more of its C library than `memcpy` and `memset`.
fn copy(from: &[u8], to: &mut [u8])
    requires { length from.now ≡ length to.old }
    ensures { to.new ≡ from.now }
{
    for i in 0..to.len() {
        to[i] = from[i];
    }
}

// Refused by 5, 6 or 7 as the header is, then by 2 if a buffer has another length than the layout's.
pub fn fill_from_file(file: &[u8], fixed: &mut [u8], changing: &mut [u8]) -> Result<(), Refusal>
    ensures value { answer_number result ≡ fill_refusal file.now (length fixed.old) (length changing.old) }
    ensures fixed_after { fixed.new ≡ fixed_filled file.now fixed.old changing.old }
    ensures changing_after { changing.new ≡ changing_filled file.now fixed.old changing.old }
{
    let cartridge = read_header(file)?;
    cartridge.layout.check(fixed.len(), changing.len())?;
    // PRG and CHR stand in the file as they do in the buffer, CHR where PRG ends.
    let start = cartridge.prg_start as usize;
    let (zeros, rom) = fixed.split_at_mut(1024);
    zeros.fill(0);
    copy(&file[start..start + rom.len()], rom);
    changing.fill(0);
    Ok(())
}
