// The commands that change a volume, and those that bring files in and out.

use super::{Choice, Flag, Form, PATH, PATHS, Part};

/// The new path of what is moved or copied.
const TO: Part = Part::Wanted {
    name: "TO",
    help: "the new path, or a folder to go into",
};

/// That folders are meant with all below them.
const ALL_BELOW: Part = Part::Flag(Flag {
    name: "recursive",
    short: Some('R'),
    alias: None,
    help: "folders with all below them",
});

static FORMS: [Form; 12] = [
    Form {
        name: "put",
        about: "bring files and folders in",
        after: "A folder goes into PATH under its own name where that is there; FOLDER/. is what is in it.
Example: xnfs disk.img put notes.txt pictures /home",
        parts: &[
            Part::Several {
                name: "SOURCE",
                help: "files and folders of the system, or - for standard input",
            },
            PATH,
        ],
    },
    Form {
        name: "get",
        about: "bring files and folders out",
        after: "Example: xnfs disk.img get /notes.txt copy.txt",
        parts: &[
            PATHS,
            Part::Wanted {
                name: "TARGET",
                help: "a path of the system, or - for standard output",
            },
        ],
    },
    Form {
        name: "cp",
        about: "copy files and folders within the volume",
        after: "Example: xnfs disk.img cp -r /home /old",
        parts: &[
            PATHS,
            TO,
            Part::Flag(Flag {
                name: "recursive",
                short: Some('r'),
                alias: Some('R'),
                help: "folders too, with all below them, modes and times",
            }),
        ],
    },
    Form {
        name: "mv",
        about: "give files and folders other names",
        after: "Example: xnfs disk.img mv /notes.txt /old.txt",
        parts: &[PATHS, TO],
    },
    Form {
        name: "rm",
        about: "give files up",
        after: "Example: xnfs disk.img rm -r /old",
        parts: &[
            PATHS,
            Part::Flag(Flag {
                name: "recursive",
                short: Some('r'),
                alias: Some('R'),
                help: "folders too, with all below them",
            }),
            Part::Flag(Flag {
                name: "force",
                short: Some('f'),
                alias: None,
                help: "pass over what isn't there",
            }),
        ],
    },
    Form {
        name: "mkdir",
        about: "make folders",
        after: "Example: xnfs disk.img mkdir -p /a/b",
        parts: &[
            PATHS,
            Part::Flag(Flag {
                name: "parents",
                short: Some('p'),
                alias: None,
                help: "make those above them too",
            }),
        ],
    },
    Form {
        name: "rmdir",
        about: "give empty folders up",
        after: "Example: xnfs disk.img rmdir /a/b",
        parts: &[PATHS],
    },
    Form {
        name: "ln",
        about: "give a file another name, or make a symbolic link",
        after: "Example: xnfs disk.img ln -s notes.txt /newest",
        parts: &[
            Part::Wanted {
                name: "TARGET",
                help: "the file, or what the symbolic link leads to",
            },
            PATH,
            Part::Flag(Flag {
                name: "symbolic",
                short: Some('s'),
                alias: None,
                help: "a symbolic link",
            }),
        ],
    },
    Form {
        name: "chmod",
        about: "set permissions",
        after: "Example: xnfs disk.img chmod u+x,go-w /run",
        parts: &[
            Part::WantedSigned {
                name: "MODE",
                help: "octal as 644, or changes as u+x,go-w",
            },
            PATHS,
            ALL_BELOW,
        ],
    },
    Form {
        name: "chown",
        about: "set owners",
        after: "Example: xnfs disk.img chown 1000:1000 /home",
        parts: &[
            Part::Wanted {
                name: "OWNER",
                help: "the number of a user, and behind a colon that of a group",
            },
            PATHS,
            ALL_BELOW,
        ],
    },
    Form {
        name: "touch",
        about: "set times, or make empty files",
        after: "Example: xnfs disk.img touch -d '2026-11-29 12:00' /notes.txt",
        parts: &[
            PATHS,
            Part::Choice(Choice {
                name: "date",
                short: Some('d'),
                value: "TIME",
                values: &[],
                required: false,
                help: "seconds since 1970, or a date as 2026-11-29 12:00:00, in UTC",
            }),
        ],
    },
    Form {
        name: "truncate",
        about: "set the size of files",
        after: "Example: xnfs disk.img truncate -s 1M /notes.txt",
        parts: &[
            PATHS,
            Part::Choice(Choice {
                name: "size",
                short: Some('s'),
                value: "SIZE",
                values: &[],
                required: true,
                help: "how many bytes, or as 64K, 1M, 2G",
            }),
        ],
    },
];

/// The commands that change a volume, and those that bring files in and out.
pub fn forms() -> &'static [Form] {
    &FORMS
}
