// What a device is asked to send.
ghost use Rattle.std.specs.Prelude.{◌≡◌};
ghost use Rattle.parts.specs.Modes.{mode_of};

// All its rows, its branch part or its full part.
#[derive(Clone, Copy, PartialEq, Eq)]
pub enum Mode {
    All,
    Branch,
    Full,
}

impl Mode {
    // The mode that a word of the C interface stands for, if it stands for one.
    pub(crate) fn of(word: u32) -> Option<Mode>
        ensures { result ≡ mode_of word }
    {
        match word {
            1 => Some(Mode::All),
            2 => Some(Mode::Branch),
            3 => Some(Mode::Full),
            _ => None,
        }
    }
}
