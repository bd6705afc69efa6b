// The state after one more byte of the input.
ghost use Rattle.std.specs.Prelude.{◌≡◌};
ghost use Rattle.cut_lines.specs.Scanning.{advanced, has_begun, longer, read_line, stepped};

use crate::{Fields, LINE, Scan, TAB_PLACE};
use text::digit_of;

impl Fields {
    // A byte more, if a line may have it here: a tab at its place, a digit at any other.
    #[tactic(auto, unfolding(crate::specs::Scanning::longer, crate::specs::Scanning::expected, crate::specs::Scanning::value_with))]
    fn with(self, b: u8) -> Option<Fields>
        ensures { result ≡ longer self b }
    {
        if self.place == TAB_PLACE {
            return if b == b'\t' {
                Some(Fields {
                    place: self.place + 1,
                    ..self
                })
            } else {
                None
            };
        }
        let d = digit_of(b)?;
        if self.place < LINE {
            Some(Fields {
                place: self.place + 1,
                value: (self.value << 4) + d,
            })
        } else {
            None
        }
    }
}

impl Scan {
    // Whether a byte of the line was read.
    pub(crate) fn has_begun(self) -> bool
        ensures { result ≡ has_begun self.fields }
    {
        self.fields.is_none_or(|f| f.place > 0)
    }

    // A byte of the line.
    #[tactic(auto, unfolding(crate::specs::Scanning::advanced))]
    fn advance(self, b: u8) -> Scan
        ensures { result ≡ advanced self b }
    {
        Scan {
            fields: self.fields.and_then(|f| f.with(b)),
            ..self
        }
    }

    // Any byte of the input.
    #[tactic(auto, unfolding(crate::specs::Scanning::stepped))]
    pub(crate) fn step(self, b: u8) -> Scan
        ensures { result ≡ stepped self b }
    {
        if b == b'\n' {
            crate::start(self.number.wrapping_add(1))
        } else {
            self.advance(b)
        }
    }

    // The bytes of a line.
    pub(crate) fn read_line(self, line: &[u8]) -> Scan
        ensures { result ≡ read_line self line.now }
    {
        line.iter().fold(self, |s, b| s.advance(*b))
    }
}
