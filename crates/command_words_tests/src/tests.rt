//! Tries words against two forms, a copy and a server, for the command and the values that they
//! give, and numbers in ranges.
use command_words::{CommandForm, number_in, read_command};
use std::alloc::Global;
use std::test::Fail;

static FORMS: [CommandForm<'static>; 2] = [
    ("copy", &["from", "to"], &["depth", "mode"]),
    ("serve", &[], &["port", "workers", "connections"]),
];

/// Words, and the command with its values that they give; nothing, where they give none.
const COMMANDS: &str = "\
serve --port 1 --workers 2 --connections 3 => serve 1 2 3
 => 
serve --connections=3 --port=1 --workers 2 => serve 1 2 3
serve --port= --workers 2 --connections 3 => serve  2 3
serve --port=a=b --workers 2 --connections 3 => serve a=b 2 3
serve --port 1 --workers 2 => 
serve --port 1 --workers 2 --connections => 
serve --port 1 --port 1 --workers 2 --connections 3 => 
serve --port=1 --workers 2 --connections 3 --port=1 => 
serve --port=1 --workers 2 --connections 3 --port => 
serve --port -1 --workers 2 --connections 3 => 
serve --port=-1 --workers 2 --connections 3 => 
serve --port --workers 2 --connections 3 => 
serve --port 1 --workers 2 --connections 3 4 => 
serve --depth 1 --port 1 --workers 2 --connections 3 => 
serve --por 1 --workers 2 --connections 3 => 
serve -- --port 1 --workers 2 --connections 3 => 
serve --port 1 --workers 2 --connections 3 -- => 
serve --port -- --workers 2 --connections 3 => 
serve --port 1 --workers 2 --connections 3 -h => 
serve --port 1 --workers 2 --connections 3 --help => 
serve --port 1 --workers 2 --connections 3 -V => 
serve --port 1 --workers 2 --connections 3 --version => 
serve --port --help --workers 2 --connections 3 => 
serve -p 1 --workers 2 --connections 3 => 
serve --= --port 1 --workers 2 --connections 3 => 
copy a b --depth 1 --mode x => copy a b 1 x
copy --mode=x a --depth 1 b => copy a b 1 x
copy --depth 1 --mode x copy serve => copy copy serve 1 x
copy help b --depth help --mode x => copy help b help x
copy a --depth 1 --mode x => 
copy a b c --depth 1 --mode x => 
copy a b --mode x => 
copy a -b --depth 1 --mode x => 
copy a - --depth 1 --mode x => 
copy a b --depth 1 --mode x --from y => 
copy a b --Depth 1 --mode x => 
Copy a b --depth 1 --mode x => 
--depth 1 copy a b --mode x => 
help => 
help serve => 
-h => 
--help => 
-V => 
--version => 
-- => 
--serve => ";

/// Words, and whether a number from 1 to 65535 stands there.
const PORTS: &str = "\
1 => 1
0000000001 => 1
65535 => 65535
65536 => 
0 => 
00000000001 => 
+1 => 
-1 => 
1a => 
0x1 => 
9999999999 => ";

fn words_of(alloc: Global, line: &str) -> Result<Vec<String>, Fail> {
    let mut words = Vec::new(alloc);
    for word in line.split_whitespace() {
        words.push(String::from_str(alloc, word)?)?;
    }
    Ok(words)
}

/// The command that the words give, and its values.
fn told(alloc: Global, words: &[String]) -> Result<String, Fail> {
    let mut text = String::new(alloc);
    let command = read_command(alloc, &FORMS, words).ok().ok_or("no memory")?;
    if let Some(found) = command {
        text.push_str(found.name)?;
        for value in &found.values {
            text.push_str(" ")?;
            text.push_str(value)?;
        }
    }
    Ok(text)
}

#[test]
fn words_by_forms(rt: HostRuntime) -> Result<(), Fail> {
    let alloc = rt.alloc();
    for row in COMMANDS.lines() {
        let (line, expected) = row.split_once(" => ").ok_or("no row")?;
        assert!(rt; are_told(alloc, line, expected)?, "{line}");
    }
    Ok(())
}

fn are_told(alloc: Global, line: &str, expected: &str) -> Result<bool, Fail> {
    let words = words_of(alloc, line)?;
    Ok(told(alloc, &words)?.as_str() == expected)
}

/// The number of a port; nothing, where the word gives none.
fn port_told(alloc: Global, word: &str) -> Result<String, Fail> {
    match number_in(1, 65535, word) {
        Some(number) => Ok(format!(in alloc; "{number}")?),
        None => Ok(String::new(alloc)),
    }
}

#[test]
fn numbers_of_words(rt: HostRuntime) -> Result<(), Fail> {
    let alloc = rt.alloc();
    for row in PORTS.lines() {
        let (word, expected) = row.split_once(" => ").ok_or("no row")?;
        assert!(rt; port_told(alloc, word)?.as_str() == expected, "{word}");
    }
    let words = ["4294967295", "4294967296", ""];
    let numbers = words.map(|word| number_in(0, u32::MAX, word));
    assert!(rt; numbers == [Some(u32::MAX), None, None]);
    Ok(())
}
