// The commands that a line or a shell has alone.

use super::{Flag, Form, Part};

/// What is told of a shell.
const SHELL_HELP: &str =
    "A line has the words of a command, parted by blanks; '..' and \"..\" keep blanks in a word, and what stands behind # is passed over. Beside the
commands of a line a shell has cd PATH, pwd, sync, exit and quit. A line that fails is told, and the next one is read. The status is the greatest of
all lines.

Example: printf 'mkdir /a\\nput notes.txt /a\\n' | xnfs disk.img shell";

static LINE_FORMS: [Form; 2] = [
    Form {
        name: "sync",
        about: "write all that is pending",
        after: "A line writes what it did also without it.
Example: xnfs disk.img sync",
        parts: &[],
    },
    Form {
        name: "shell",
        about: "read these commands from standard input, a line each",
        after: SHELL_HELP,
        parts: &[Part::Flag(Flag {
            name: "lazy",
            short: None,
            alias: None,
            help: "write what lines did at sync and at the end, and not at each line",
        })],
    },
];

static SHELL_FORMS: [Form; 5] = [
    Form {
        name: "cd",
        about: "go to a folder, from which paths are read on",
        after: "Example: cd /home",
        parts: &[Part::FolderOrTop],
    },
    Form {
        name: "pwd",
        about: "print the path of the folder",
        after: "Example: pwd",
        parts: &[],
    },
    Form {
        name: "sync",
        about: "write what all lines so far did",
        after: "Example: sync",
        parts: &[],
    },
    Form {
        name: "exit",
        about: "end the shell",
        after: "Example: exit",
        parts: &[],
    },
    Form {
        name: "quit",
        about: "end the shell",
        after: "Example: quit",
        parts: &[],
    },
];

/// The commands that a line has alone.
pub fn line_forms() -> &'static [Form] {
    &LINE_FORMS
}

/// The commands that a shell has alone.
pub fn shell_forms() -> &'static [Form] {
    &SHELL_FORMS
}
