// The commands that look.

use super::{Choice, Flag, Form, HUMAN, JSON, PATHS, Part};

static FORMS: [Form; 9] = [
    Form {
        name: "ls",
        about: "list the names in folders",
        after: "Example: xnfs disk.img ls -l /",
        parts: &[
            Part::Folders,
            Part::Flag(Flag {
                name: "long",
                short: Some('l'),
                alias: None,
                help: "mode, links, owner, size and time too",
            }),
            Part::Flag(Flag {
                name: "all",
                short: Some('a'),
                alias: None,
                help: "names that begin with a dot too",
            }),
            Part::Flag(Flag {
                name: "recursive",
                short: Some('R'),
                alias: None,
                help: "the folders below too",
            }),
            HUMAN,
            JSON,
        ],
    },
    Form {
        name: "tree",
        about: "list all below a folder",
        after: "Example: xnfs disk.img tree",
        parts: &[Part::Folder],
    },
    Form {
        name: "cat",
        about: "print files",
        after: "Example: xnfs disk.img cat /notes.txt",
        parts: &[PATHS],
    },
    Form {
        name: "stat",
        about: "tell all that is known of files and folders",
        after: "Example: xnfs disk.img stat /notes.txt",
        parts: &[PATHS, JSON],
    },
    Form {
        name: "readlink",
        about: "print where symbolic links lead",
        after: "Example: xnfs disk.img readlink /newest",
        parts: &[PATHS],
    },
    Form {
        name: "find",
        about: "print the paths of all below folders, or of some of it",
        after: "Example: xnfs disk.img find / -name '*.txt' -type f",
        parts: &[
            Part::Folders,
            Part::Choice(Choice {
                name: "name",
                short: None,
                value: "GLOB",
                values: &[],
                required: false,
                help: "what the last name is like: * any characters, ? one; also -name",
            }),
            Part::Choice(Choice {
                name: "type",
                short: None,
                value: "KIND",
                values: &["f", "d", "l"],
                required: false,
                help: "files, folders or symbolic links alone; also -type",
            }),
        ],
    },
    Form {
        name: "du",
        about: "tell how many blocks files and folders take",
        after: "Example: xnfs disk.img du -s /",
        parts: &[
            Part::Folders,
            Part::Flag(Flag {
                name: "summarize",
                short: Some('s'),
                alias: None,
                help: "the sum of each path alone",
            }),
            HUMAN,
        ],
    },
    Form {
        name: "df",
        about: "tell what is taken, what is left, and the limits",
        after: "Example: xnfs disk.img df",
        parts: &[HUMAN, JSON],
    },
    Form {
        name: "check",
        about: "check the disk and its volume",
        after: "Example: xnfs disk.img check",
        parts: &[
            Part::Flag(Flag {
                name: "repair",
                short: None,
                alias: None,
                help: "mend what can be mended",
            }),
            JSON,
        ],
    },
];

/// The commands that look.
pub fn forms() -> &'static [Form] {
    &FORMS
}
