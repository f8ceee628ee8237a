// What create checks.
ghost use Rattle.std.specs.Prelude.{◌≡◌, ◌≤◌, IfOk, length, take};
ghost use Rattle.base_shared.specs.Numbers.{answer_number};
ghost use Rattle.vrc6_parts.specs.Checks.{all_zero, creation_refusal};

use base_shared::Refusal;
use memory_layout::{LimitedLayout, MemoryLayout};

// Whether the fixed buffer's first page, which unmapped entries show, is all zero.
fn first_page_is_zero(fixed: &[u8]) -> bool
    requires { 1024 ≤ length fixed.now }
    ensures { result ≡ all_zero (take 1024 fixed.now) }
{
    fixed[..1024].iter().all(|byte| *byte == 0)
}

// The first failing of conditions 1, 2 and 4.
pub fn check_creation(
    layout: MemoryLayout,
    fixed: &[u8],
    changing: &[u8],
) -> Result<LimitedLayout, Refusal>
    ensures number { answer_number result ≡ creation_refusal layout fixed.now changing.now }
    ensures same { IfOk result (λ limited. limited.layout ≡ layout) }
{
    let limited = layout.check(fixed.len(), changing.len())?;
    if first_page_is_zero(fixed) {
        Ok(limited)
    } else {
        Err(Refusal::FirstPage)
    }
}
