// The bytes that a cell means: in a cell in quotes two quotes stand for one.
ghost use Rattle.std.specs.Iterator.{YieldsFirst, item_count};
ghost use Rattle.scene_cells.specs.Quotes.{unquoted};

// A cell's bytes, or some of them, and whether the cell is in quotes.
#[derive(Clone, Copy)]
pub struct Unquoted<'a> {
    pub bytes: &'a [u8],
    pub quoted: bool,
}

impl Iterator for Unquoted<'_> {
    type Item = u8;

    ghost next_gives = { YieldsFirst (λ s. unquoted s.quoted s.bytes.now) };

    ghost remaining = { item_count (λ s. unquoted s.quoted s.bytes.now) };

    fn next(&mut self) -> Option<u8> {
        let (first, rest) = self.bytes.split_first()?;
        self.bytes = match rest {
            [b'"', behind @ ..] if self.quoted & (*first == b'"') => behind,
            _ => rest,
        };
        Some(*first)
    }
}
