// The commands, as lines of text.
#[derive(Debug, Clone, Copy, PartialEq, Eq)]
pub enum Command {
    // `root`: the digest of the map.
    Root,
}

// A line that is no command.
#[derive(Debug, Clone, Copy, PartialEq, Eq)]
pub struct NotACommand;

// The line comes without its newline.
impl TryFrom<&[u8]> for Command {
    ghost use Rattle.std.specs.Result.{result_ok};
    ghost use Rattle.timetable.specs.Command.{Parses};

    type Error = NotACommand;

    ghost try_from_gives = { λ line r. Parses line.now (result_ok r) };

    fn try_from(line: &[u8]) -> Result<Self, NotACommand> {
        match line {
            b"root" => Ok(Command::Root),
            _ => Err(NotACommand),
        }
    }
}
