//! Words that are a command, and words that are none.
use super::*;
use std::test::Fail;

/// Words that are no command, a line for each.
const NONE: &str =
    "\nhelp\n--help\n-h\n--version\nplay\nplay --help\nplay a b\nplay -x\nhelp play\ncheck a\ncheck check\ncheck --help\n--\n-- play a\nPlay a\nplay=a\nplays a\nfile a\nplay a show b";

fn words_of(alloc: Global, line: &str) -> Result<Vec<String>, AllocError> {
    let mut words = vec![in alloc; String::from_str(alloc, "gw")?]?;
    for word in line.split_ascii_whitespace() {
        words.push(String::from_str(alloc, word)?)?;
    }
    Ok(words)
}

#[test]
fn commands(rt: HostRuntime) -> Result<(), Fail> {
    let lines = [
        ("play a", Command::Play { file: "a" }),
        ("show a/b", Command::Show { file: "a/b" }),
        ("play -- -x", Command::Play { file: "-x" }),
        ("show show", Command::Show { file: "show" }),
        ("play -", Command::Play { file: "-" }),
        ("check", Command::Check),
    ];
    for (line, command) in lines {
        let words = words_of(rt.alloc(), line)?;
        assert_eq!(rt; read(rt.alloc(), words.as_slice()), Ok(command), "{line:?}");
    }
    Ok(())
}

#[test]
fn no_commands(rt: HostRuntime) -> Result<(), Fail> {
    for line in NONE.lines() {
        let words = words_of(rt.alloc(), line)?;
        assert_eq!(rt;
            read(rt.alloc(), words.as_slice()),
            Err(CommandFault::Words),
            "{line:?}"
        );
    }
    Ok(())
}
