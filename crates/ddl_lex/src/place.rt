ghost use Rattle.std.specs.Prelude.{◌≡◌, ◌<◌, ◌≤◌, ◌+◌, ◌*◌, ◌^◌, ◌==◌, length, if◌then◌else◌};
ghost use Rattle.ddl_lex.specs.Places.{column_after, column_behind, line_behind};

/// A place in a text: how many bytes stand before it, and its line and column from 0.
#[derive(Clone, Copy, PartialEq, Eq)]
pub struct Place {
    pub at: u32,
    pub line: u32,
    pub column: u32,
}

impl Place {
    /// Where a text begins.
    pub fn start() -> Self
        ensures at { result.at ≡ 0 }
        ensures line { result.line ≡ 0 }
        ensures column { result.column ≡ 0 }
    {
        Place {
            at: 0,
            line: 0,
            column: 0,
        }
    }

    /// The place behind a byte.
    fn after(self, byte: u8) -> Self
        requires size { self.at < 2 ^ 22 }
        requires line { self.line ≤ self.at }
        requires column { self.column ≤ 8 * self.at }
        ensures at { result.at ≡ self.at + 1 }
        ensures line { result.line ≡ (if byte == 10 then self.line + 1 else self.line) }
        ensures column { result.column ≡ column_after self.column byte }
        ensures line_fits { result.line ≤ result.at }
        ensures column_fits { result.column ≤ 8 * result.at }
    {
        let (line, column) = match byte {
            b'\n' => (self.line + 1, 0),
            b'\t' => (self.line, (self.column / 8 + 1) * 8),
            _ => (self.line, self.column + 1),
        };
        Place {
            at: self.at + 1,
            line,
            column,
        }
    }

    /// The place behind these bytes.
    pub fn behind(self, bytes: &[u8]) -> Self
        requires size { self.at + length bytes.now ≤ 2 ^ 22 }
        requires line { self.line ≤ self.at }
        requires column { self.column ≤ 8 * self.at }
        ensures at { result.at ≡ self.at + length bytes.now }
        ensures line { result.line ≡ line_behind self.line bytes.now }
        ensures column { result.column ≡ column_behind self.column bytes.now }
        ensures line_fits { result.line ≤ result.at }
        ensures column_fits { result.column ≤ 8 * result.at }
    {
        let mut place = self;
        for byte in bytes {
            place = place.after(*byte);
        }
        place
    }
}
