// The forms of the commands.

pub mod changing;
pub mod looking;
pub mod others;

/// A flag of a command.
pub struct Flag {
    pub name: &'static str,
    pub short: Option<char>,
    /// A second letter that means the same.
    pub alias: Option<char>,
    pub help: &'static str,
}

/// An option of a command, which has a value.
pub struct Choice {
    pub name: &'static str,
    pub short: Option<char>,
    pub value: &'static str,
    /// The values that it may have, where they are few.
    pub values: &'static [&'static str],
    pub required: bool,
    pub help: &'static str,
}

/// A part of a command's line.
pub enum Part {
    /// A word that has to be there.
    Wanted {
        name: &'static str,
        help: &'static str,
    },
    /// A word that has to be there and may begin with `-`, as a mode may.
    WantedSigned {
        name: &'static str,
        help: &'static str,
    },
    /// One word or more.
    Several {
        name: &'static str,
        help: &'static str,
    },
    /// The path of a folder, the shell's own where it is left out.
    Folder,
    /// The same of several.
    Folders,
    /// The path of a folder, the top one where it is left out.
    FolderOrTop,
    Flag(Flag),
    Choice(Choice),
}

/// A command: its name, what it does, what is told behind its help, and its line.
pub struct Form {
    pub name: &'static str,
    pub about: &'static str,
    pub after: &'static str,
    pub parts: &'static [Part],
}

/// Paths in the volume.
pub const PATHS: Part = Part::Several {
    name: "PATH",
    help: "paths in the volume, as /folder/file",
};

/// A path in the volume.
pub const PATH: Part = Part::Wanted {
    name: "PATH",
    help: "a path in the volume, as /folder/file",
};

/// That something is told as one JSON value.
pub const JSON: Part = Part::Flag(Flag {
    name: "json",
    short: None,
    alias: None,
    help: "tell it as one JSON value",
});

/// The name of the flag by which sizes are told as people read them.
pub const HUMAN_NAME: &str = "human-readable";

/// That sizes are told as people read them. Its letter is that of the help, which has only its long name then.
pub const HUMAN: Part = Part::Flag(Flag {
    name: HUMAN_NAME,
    short: Some('h'),
    alias: None,
    help: "sizes as 1.5K and 64M",
});

/// Where a command is read.
#[derive(Clone, Copy, Debug, PartialEq, Eq)]
pub enum Place {
    Line,
    Shell,
}

/// The commands of a place, in the order in which they are told.
pub fn forms_of(place: Place) -> [&'static [Form]; 3] {
    match place {
        Place::Line => [looking::forms(), changing::forms(), others::line_forms()],
        Place::Shell => [looking::forms(), changing::forms(), others::shell_forms()],
    }
}
