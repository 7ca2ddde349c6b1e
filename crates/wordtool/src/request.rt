// What a line asks for, by its words.
use std::fmt;

#[derive(Clone, Copy)]
pub enum Command {
    Encode,
    Read,
    Page,
    Data,
    Explain,
}

#[derive(Clone, Copy)]
pub enum Setting {
    Worked,
    Short,
    Long,
}

// With the hexadecimal digits that follow, two for each byte.
#[derive(Drop)]
pub struct Request<'a> {
    pub command: Command,
    pub setting: Setting,
    pub digits: &'a [u8],
}

// Its words, without the digits.
impl fmt::Display for Request<'_> {
    fn fmt<W: fmt::Write>(&self, f: &mut fmt::Formatter<W>) -> fmt::Result {
        write!(f, "{} {}", self.command, self.setting)
    }
}

// A word that names no command or no setting.
#[derive(Clone, Copy, Debug)]
pub struct UnknownName;

impl TryFrom<&[u8]> for Command {
    type Error = UnknownName;

    fn try_from(name: &[u8]) -> Result<Self, UnknownName> {
        match name {
            b"encode" => Ok(Command::Encode),
            b"read" => Ok(Command::Read),
            b"page" => Ok(Command::Page),
            b"data" => Ok(Command::Data),
            b"explain" => Ok(Command::Explain),
            _ => Err(UnknownName),
        }
    }
}

impl fmt::Display for Command {
    fn fmt<W: fmt::Write>(&self, f: &mut fmt::Formatter<W>) -> fmt::Result {
        f.write_str(match self {
            Command::Encode => "encode",
            Command::Read => "read",
            Command::Page => "page",
            Command::Data => "data",
            Command::Explain => "explain",
        })
    }
}

impl TryFrom<&[u8]> for Setting {
    type Error = UnknownName;

    fn try_from(name: &[u8]) -> Result<Self, UnknownName> {
        match name {
            b"worked" => Ok(Setting::Worked),
            b"short" => Ok(Setting::Short),
            b"long" => Ok(Setting::Long),
            _ => Err(UnknownName),
        }
    }
}

impl fmt::Display for Setting {
    fn fmt<W: fmt::Write>(&self, f: &mut fmt::Formatter<W>) -> fmt::Result {
        f.write_str(match self {
            Setting::Worked => "worked",
            Setting::Short => "short",
            Setting::Long => "long",
        })
    }
}
