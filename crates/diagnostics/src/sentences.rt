//! What is told on standard error where the words are no command, and at the statuses that need no
//! second look.

/// Each command: its name, what is called, and what that does.
static COMMANDS: [(&str, &str, &str); 12] = [
    (
        "eval",
        "eval RUN QRELS",
        "scores the run in one file against the qrels in another",
    ),
    (
        "session",
        "session",
        "answers the requests of standard input, for the campaign of this folder",
    ),
    (
        "serve",
        "serve --port P --workers W --connections N",
        "answers requests on port P of 127.0.0.1 until N connections ended; P is 1 to 65535, W 1 to 16, N 1 to 4294967295",
    ),
    (
        "drill",
        "drill SEED RUNS TOPICS DOCS",
        "plays a generated campaign in memory, of 1 to 256 runs on 1 to 250 topics, each of 1 to 1000 documents",
    ),
    (
        "check",
        "check",
        "opens the campaign of this folder, and tells what it is",
    ),
    (
        "compact",
        "compact",
        "packs the journal of this folder's campaign into fewer bytes, and tells how many it had and has",
    ),
    (
        "archive",
        "archive NAME",
        "puts the release of this folder's campaign into campaign.archive, once it is published",
    ),
    (
        "history",
        "history RUN",
        "tells the run in each release of campaign.archive: the release, how many topics counted, and the map",
    ),
    (
        "compare",
        "compare A B",
        "tells how two releases of campaign.archive order the runs that both have, with Kendall's tau",
    ),
    (
        "export",
        "export",
        "tells all systems of campaign.archive as CSV",
    ),
    (
        "reuse",
        "reuse",
        "tells each run of this folder's campaign, how many graded documents its group alone brought in, and its map with and without them",
    ),
    (
        "agreement",
        "agreement",
        "tells how the two assessors of each document agree, for the topics of this folder's campaign that need two labels",
    ),
];

/// What is told at a status, beside what its place in the program told.
static SENTENCES: [(u8, &str); 10] = [
    (
        3,
        "a line is refused, as standard output says: mend it; docs/FORMATS.md has what each kind means",
    ),
    (
        7,
        "memory was short: start again with more; accepted commands are in the journal",
    ),
    (
        8,
        "the output can't be written: look at the disk or the pipe behind it",
    ),
    (
        9,
        "campaign.journal is damaged, as standard output says: put a copy in its place",
    ),
    (
        10,
        "the input can't be read: send what is missing in a new session",
    ),
    (
        11,
        "the input ended inside a message, or one was refused: send what is missing in a new session",
    ),
    (
        12,
        "campaign.archive can't be used: end the program that has it open, look whether it is an archive, at its permissions and at the disk, and start again: it holds whole releases alone",
    ),
    (
        13,
        "the campaign of this folder isn't published, and nothing was archived: publish it first",
    ),
    (
        14,
        "campaign.archive has another release of this name, and nothing was archived: take another name",
    ),
    (
        15,
        "campaign.archive has no release of the name on standard output: `campaign export` names those with a system",
    ),
];

/// Tells which word is no command, or how the command is called, and then a line for each command.
pub fn tell_usage(errors: &impl Eprint, words: &[String]) {
    match words {
        [] => {
            let _ = errors.eprintln("campaign: no command is given, or a word that isn't UTF-8");
        }
        [word, ..] => tell_word(errors, word.as_str()),
    }
    for (_, call, does) in COMMANDS.iter() {
        let _ = eprintln!(errors; "    campaign {call}: {does}");
    }
}

fn tell_word(errors: &impl Eprint, word: &str) {
    if matches!(word, "help" | "--help" | "-h") {
        return;
    }
    for (name, call, _) in COMMANDS.iter() {
        if *name == word {
            let _ = eprintln!(errors; "campaign: {name} is called as `campaign {call}`");
            return;
        }
    }
    let _ = eprintln!(errors; "campaign: there is no command `{word}`");
}

/// Tells the sentence of a status, if it has one.
pub fn tell_status(errors: &impl Eprint, status: u8) {
    for (number, sentence) in SENTENCES.iter() {
        if *number == status {
            let _ = eprintln!(errors; "campaign: {sentence}");
        }
    }
}
