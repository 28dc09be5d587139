ghost use Rattle.std.specs.Prelude.{◌≡◌};
ghost use Rattle.fault.specs.Levels.{higher_of, level_of, rank_of};

// What a tag or a capability may do with an address; each level includes those before it.
#[derive(Clone, Copy, PartialEq, Eq, PartialOrd, Ord, Debug, Default)]
pub enum Level {
    #[default]
    Nothing,
    Call,
    Read,
    Write,
}

// A number that names no level which grants something.
#[derive(Clone, Copy, PartialEq, Eq, Debug)]
pub struct UnknownLevel(pub u32);

impl Level {
    // The greater of two levels.
    pub fn higher(self, other: Level) -> Level
        ensures { result ≡ higher_of self other }
    {
        self.max(other)
    }
}

// The level's number, 0 to 3.
impl From<Level> for u8 {
    ghost from_gives = { λ level number. number ≡ rank_of level };

    fn from(level: Level) -> u8 {
        level as u8
    }
}

// The level of a number that grants something, 1 to 3.
impl TryFrom<u32> for Level {
    type Error = UnknownLevel;

    ghost try_from_gives = { λ number level. level ≡ level_of number };

    fn try_from(number: u32) -> Result<Level, UnknownLevel> {
        match number {
            1 => Ok(Level::Call),
            2 => Ok(Level::Read),
            3 => Ok(Level::Write),
            _ => Err(UnknownLevel(number)),
        }
    }
}
