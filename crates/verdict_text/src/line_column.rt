//! Lines and columns of places that rise.

ghost use Rattle.std.specs.Prelude.{◌≡◌, ◌<◌, ◌^◌, ◌-◌, ◌+◌, length};
ghost use Rattle.rb_base.specs.Lines.{column_of, line_of};
ghost use Rattle.verdict_text.specs.LineColumns.{IsLineColumn};

/// A place within a source, with its line and its column.
#[derive(Clone, Copy)]
pub(crate) struct LineColumn {
    pub at: u32,
    pub line: u32,
    pub column: u32,
}

pub(crate) const START: LineColumn = LineColumn {
    at: 0,
    line: 1,
    column: 1,
};

// The next place.
fn step(source: &[u8], spot: LineColumn) -> LineColumn
    requires short { length source.now < 2 ^ 32 - 1 }
    requires spot { IsLineColumn source.now spot }
    requires inside { spot.at < length source.now }
    ensures spot { IsLineColumn source.now result }
    ensures at { result.at ≡ spot.at + 1 }
{
    let at = spot.at + 1;
    if source[spot.at as usize] == b'\n' {
        return LineColumn {
            at,
            line: spot.line + 1,
            column: 1,
        };
    }
    LineColumn {
        at,
        line: spot.line,
        column: spot.column + 1,
    }
}

/// The line and the column of a place, by a walk from another one where that isn't behind it. Places behind the end count as the end.
pub(crate) fn spot_at(source: &[u8], from: LineColumn, place: u32) -> LineColumn
    requires short { length source.now < 2 ^ 32 - 1 }
    requires from { IsLineColumn source.now from }
    ensures spot { IsLineColumn source.now result }
    ensures line { result.line ≡ line_of source.now place }
    ensures column { result.column ≡ column_of source.now place }
{
    let mut spot = if from.at <= place { from } else { START };
    while spot.at < place && (spot.at as usize) < source.len() {
        spot = step(source, spot);
    }
    spot
}
