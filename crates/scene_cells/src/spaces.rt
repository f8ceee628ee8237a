// The no-break space, which spreadsheets put where a blank may not end a line: C2 A0 in UTF-8.
ghost use Rattle.std.specs.Prelude.{◌≡◌};
ghost use Rattle.scene_cells.specs.Spaces.{with_spaces};

// Puts two spaces for each no-break space, so that it counts as a blank. It goes by places: two bytes that overlap with the next two are
// lent to be written by no iterator.
pub fn blank_spaces(text: &mut [u8])
    ensures { text.new ≡ with_spaces text.old }
{
    for i in 0..text.len().saturating_sub(1) {
        if (text[i] == 0xC2) & (text[i + 1] == 0xA0) {
            text[i] = b' ';
            text[i + 1] = b' ';
        }
    }
}
