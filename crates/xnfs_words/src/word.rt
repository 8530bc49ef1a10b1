// What is done to the files of a disk.

/// How the names in a folder are told.
#[derive(Clone, Copy, Debug, PartialEq, Eq)]
pub struct ListForm {
    /// With mode, links, owner, size and time.
    pub is_long: bool,
    /// Names that begin with a dot too.
    pub has_hidden: bool,
    /// The folders below too.
    pub is_recursive: bool,
    /// With sizes as people read them.
    pub is_human: bool,
    /// As one JSON value.
    pub is_json: bool,
}

/// What kind of thing `find` looks for.
#[derive(Clone, Copy, Debug, PartialEq, Eq)]
pub enum FoundKind {
    File,
    Folder,
    SymbolicLink,
}

/// What is done to the files of a disk. Paths are those of its volume, but for `sources` and `target` of `Put` and `Get`, which are the system's.
#[derive(Debug, Drop)]
pub enum Word<'a> {
    /// The names in folders, or of files.
    List {
        paths: Vec<&'a str>,
        form: ListForm,
    },
    /// All that stands below a folder.
    Tree {
        path: &'a str,
    },
    /// The bytes of files.
    Cat {
        paths: Vec<&'a str>,
    },
    /// All that is known of files and folders.
    Stat {
        paths: Vec<&'a str>,
        is_json: bool,
    },
    /// What symbolic links lead to.
    ReadLink {
        paths: Vec<&'a str>,
    },
    /// The paths of all below folders, whose last name is like the glob and which are of the kind.
    Find {
        paths: Vec<&'a str>,
        name: Option<&'a str>,
        kind: Option<FoundKind>,
    },
    /// How many blocks files and folders take; below each path, or its sum alone.
    DiskUsage {
        paths: Vec<&'a str>,
        is_summary: bool,
        is_human: bool,
    },
    /// What is taken and what is left, beside the limits.
    FreeSpace {
        is_json: bool,
        is_human: bool,
    },
    /// The disk and its volume are checked, and what can be mended is mended where that is asked.
    Check {
        is_repairing: bool,
        is_json: bool,
    },
    /// Files and folders with all below them are brought into the volume; `-` is standard input.
    Put {
        sources: Vec<&'a str>,
        path: &'a str,
    },
    /// Files and folders with all below them are brought out of the volume; `-` is standard output.
    Get {
        paths: Vec<&'a str>,
        target: &'a str,
    },
    /// Files are copied, and folders with all below them where that is asked.
    Copy {
        paths: Vec<&'a str>,
        to: &'a str,
        is_recursive: bool,
    },
    /// Files and folders get other names.
    Move {
        paths: Vec<&'a str>,
        to: &'a str,
    },
    /// Files are given up, and folders with all below them where that is asked. What isn't there is passed over where that is asked.
    Remove {
        paths: Vec<&'a str>,
        is_recursive: bool,
        is_forced: bool,
    },
    /// Folders are made, perhaps with those above them.
    MakeFolder {
        paths: Vec<&'a str>,
        with_parents: bool,
    },
    /// Empty folders are given up.
    RemoveFolder {
        paths: Vec<&'a str>,
    },
    /// A file gets another name, or a symbolic link is made.
    Link {
        target: &'a str,
        path: &'a str,
        is_symbolic: bool,
    },
    /// Permissions are set, as this text says.
    ChangeMode {
        mode: &'a str,
        paths: Vec<&'a str>,
        is_recursive: bool,
    },
    /// Owners are set, as this text says.
    ChangeOwner {
        owner: &'a str,
        paths: Vec<&'a str>,
        is_recursive: bool,
    },
    /// Times are set, to now or as this text says; where nothing is an empty file is made.
    Touch {
        paths: Vec<&'a str>,
        date: Option<&'a str>,
    },
    /// Files get this size, in bytes.
    Truncate {
        paths: Vec<&'a str>,
        size: u64,
    },
    /// These words are read from standard input, a line each; lazily, they are on the disk at `Sync` and at the end.
    Shell {
        is_lazy: bool,
    },
    /// All that was done so far is on the disk.
    Sync,
    /// Paths are read from this folder on.
    ChangeFolder {
        path: &'a str,
    },
    /// The path of the folder from which paths are read.
    Folder,
    /// The shell ends.
    Exit,
}
