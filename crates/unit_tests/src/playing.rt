// Transcripts that are not as written.

use crate::disks::same;
use player::play;

/// What is told of a line that the player doesn't know.
const NO_COMMAND: &str = "line 3: no command";

/// Transcripts, and what is told of the first line that is not as written.
static PLAYED: [(&str, &str); 12] = [
    (
        "$ xnsim format disk 32\nblocks 33 templates 0\n",
        "line 2: expected \"blocks 33 templates 0\", came \"blocks 32 templates 0\"",
    ),
    (
        "\n# More than stands there.\n$ xnsim format disk 32\n",
        "line 4: expected \"nothing\", came \"blocks 32 templates 0\"",
    ),
    (
        "$ xnsim format disk 32\nblocks 32 templates 0\nmore\n",
        "line 3: expected \"more\", came \"nothing\"",
    ),
    (
        "$ xnsim run none none\ncannot read none\nstatus 1\n",
        "line 2: expected \"cannot read none\", came \"nothing\"",
    ),
    (
        "$ xnsim run none none\n2> cannot read none\n",
        "line 1: expected \"0\", came \"1\"",
    ),
    (
        "$ xnsim run none none\n2> cannot read none\nstatus 2\n",
        "line 3: expected \"2\", came \"1\"",
    ),
    ("# One.\n\nblocks 32 templates 0\n", NO_COMMAND),
    ("# One.\n\n$ ls\n", NO_COMMAND),
    ("# One.\n\n$ xnsim  help\n", NO_COMMAND),
    ("# One.\n\n$ cat > script <<EOF\nbegin 1\n", NO_COMMAND),
    ("# One.\n\n$ wc -c none\n", NO_COMMAND),
    ("# One.\n\n$ printf '\\q' > none\n", NO_COMMAND),
];

#[test]
fn tells_the_first_line_that_is_not_as_written(rt: HostRuntime) {
    for (transcript, told) in &PLAYED {
        match play(&rt, rt.alloc(), transcript) {
            Ok(_) => panic!(rt; "{transcript} was played"),
            Err(fault) => match format!(in rt.alloc(); "{fault}") {
                Ok(text) => same(&rt, transcript, text.as_str(), *told),
                Err(_) => panic!(rt; "no memory"),
            },
        }
    }
}
