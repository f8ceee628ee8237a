// The path of a file that a cell names.
#![tactic(auto)]

ghost use Rattle.std.specs.Prelude.{◌≡◌, ◌<◌, ◌++◌, ℕ, Bool, length, IfNone, MatchOption, OnSome};
ghost use Rattle.scene_paths.specs.Names.{is_ink, is_slash, trimmed, up_to};
ghost use Rattle.scene_cells.specs.Quotes.{unquoted};
ghost use Rattle.scene_paths.specs.Paths.{folder_of, is_rooted, name_of, path_of};

use arrayvec::ArrayVec;
use scene_cells::quotes::Unquoted;
use text_words::{from_first, is_blank};

// A text up to its last byte that a test takes, with it. A loop: `rposition` was tried, and the
// search closes neither return.
#[tactic(auto, using(crate::proofs::Ends::kept, crate::proofs::Ends::left_out))]
fn up_to<F: Fn(u8) -> bool>(text: &[u8], takes: F) -> &[u8]
    ghost test: { ℕ → Bool }
    requires callable { F.IsAlwaysCallable takes }
    requires tests { (b : ℕ) (r : Bool) → F.post takes b r → r ≡ test b }
    ensures { result.now ≡ up_to test text.now }
{
    let mut text = text;
    while let [front @ .., last] = text {
        if takes(*last) {
            return text;
        }
        text = front;
    }
    text
}

// A cell's bytes without the blanks at its ends.
pub fn name_in(cell: &[u8]) -> &[u8]
    ensures { result.now ≡ trimmed cell.now }
{
    up_to(from_first(cell, false), |byte| !is_blank(byte))
}

// Whether a name begins with a slash.
fn is_rooted(name: &[u8]) -> bool
    ensures { result ≡ is_rooted name.now }
{
    match name {
        [first, ..] => *first == b'/',
        [] => false,
    }
}

// What stands before a name in its path: the folder of the sheet, or nothing.
fn folder_of<'a>(sheet: &'a [u8], name: &[u8]) -> &'a [u8]
    ensures { result.now ≡ folder_of sheet.now name.now }
{
    if is_rooted(name) {
        return &sheet[..0];
    }
    up_to(sheet, |byte| byte == b'/')
}

// Puts a name behind a path, as long as there is room.
fn put_name<const N: usize>(path: &mut ArrayVec<u8, N>, name: Unquoted) -> Option<()>
    ensures all { OnSome result (path.new.items ≡ path.old.items ++ unquoted name.entry.quoted name.entry.bytes.now) }
    ensures full { IfNone result (N < length (path.old.items ++ unquoted name.entry.quoted name.entry.bytes.now)) }
{
    for byte in name {
        path.try_push(byte).ok()?;
    }
    Some(())
}

// The path of the file that a cell names, from the folder of the sheet; none where it has more than N bytes.
#[tactic(auto, using(crate::proofs::Folders::same_folder))]
pub fn path_of<const N: usize>(sheet: &[u8], cell: Unquoted) -> Option<ArrayVec<u8, N>>
    ensures { let path = path_of sheet.now (name_of cell.entry.quoted cell.entry.bytes.now) in MatchOption result (N < length path) (λ p. p.items ≡ path) }
{
    let bytes = name_in(cell.bytes);
    let mut path = ArrayVec::new();
    path.try_extend_from_slice(folder_of(sheet, bytes)).ok()?;
    put_name(&mut path, Unquoted { bytes, ..cell })?;
    Some(path)
}
