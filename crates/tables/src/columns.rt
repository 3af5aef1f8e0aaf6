// The columns of a file's line of values.
ghost use Rattle.std.specs.Prelude.{◌≡◌, ◌<◌};
ghost use Rattle.tables.specs.Files.{is_last, byte_after, tells_of, may_sign};

use super::entries::{B, KIND, TO_CONSTANT};

// Which numbers of a file may have a minus sign.
#[derive(Clone, Copy)]
pub(crate) enum Signs {
    Nowhere,
    Values,
    Constants,
}

// The column of a number, and what the numbers before it told: whether the last one of the line may have a sign.
#[derive(Clone, Copy, Default)]
pub struct Column {
    pub index: usize,
    pub told: bool,
}

// What a line of values is.
#[derive(Clone, Copy)]
pub(crate) struct Format {
    pub columns: usize,
    pub signs: Signs,
    ghost has_column: { 0 < columns },
}

impl Signs {
    // What the number w in a column tells of the last one.
    fn tells(self, column: Column, w: u32) -> bool
        ensures { result ≡ tells_of self column.index w column.told }
    {
        match self {
            Signs::Nowhere => false,
            Signs::Values => true,
            Signs::Constants => match column.index {
                KIND => (7 <= w) & (w <= 9),
                B => column.told & (w == TO_CONSTANT),
                _ => column.told,
            },
        }
    }
}

impl Format {
    ghost use Rattle.tables.specs.Files.{column_after};
    ghost use Rattle.tables.specs.Scans.{format_of};

    pub fn is_last(self, column: Column) -> bool
        ensures { result ≡ is_last self.columns column.index }
    {
        column.index == self.columns - 1
    }

    // The byte after the number in a column.
    #[tactic(auto, unfolding(crate::specs::Files::byte_after))]
    pub fn byte_after(self, column: Column) -> u8
        ensures { result ≡ byte_after self.columns column.index }
    {
        if self.is_last(column) { b'\n' } else { b' ' }
    }

    // Whether the number in a column may have a sign.
    pub fn may_sign(self, column: Column) -> bool
        ensures { result ≡ may_sign self.columns column.index column.told }
    {
        self.is_last(column) & column.told
    }

    // The column after that of the number w: each line starts anew.
    pub fn column_after(self, column: Column, w: u32) -> Column
        requires { column.index < self.columns }
        ensures after { result ≡ column_after (format_of self) column w }
        ensures bound { result.index < self.columns }
    {
        if self.is_last(column) {
            return Column::default();
        }
        Column {
            index: column.index + 1,
            told: self.signs.tells(column, w),
        }
    }
}
