// A text cut into lines.
ghost use Rattle.timetable.specs.Lines.{Splits};

// The lines of a text, without their newlines.
#[derive(Drop)]
pub struct Lines<'a> {
    // The text after the lines that were given.
    pub rest: &'a [u8],
}

impl<'a> Iterator for Lines<'a> {
    type Item = &'a [u8];

    ghost use Rattle.std.specs.Iterator.{YieldsFirstRef, item_count};
    ghost use Rattle.timetable.specs.Lines.{lines};

    ghost next_gives = { YieldsFirstRef (λ s. lines s.rest.now) };

    ghost remaining = { item_count (λ s. lines s.rest.now) };

    fn next(&mut self) -> Option<&'a [u8]> {
        if self.rest.is_empty() {
            return None;
        }
        let (line, rest) = split_line(self.rest);
        self.rest = rest;
        Some(line)
    }
}

// The first line, without its newline, and the text after it.
fn split_line(text: &[u8]) -> (&[u8], &[u8])
    ensures { Splits text.now result.0.now result.1.now }
{
    match text.iter().position(|byte| *byte == b'\n') {
        Some(end) => (&text[..end], &text[end + 1..]),
        None => (text, &[]),
    }
}
