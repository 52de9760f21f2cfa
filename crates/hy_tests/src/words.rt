// The words that are a command, and those that are none.
use hy_words::{Command, Usage, read_words};
use std::alloc::{AllocError, Global};
use std::test::Fail;

// What is read of the words of a row, as text: the command, the file, the turns and whether a report is wanted.
fn read(alloc: Global, row: &str) -> Result<String, Fail> {
    let mut words = Vec::new(alloc);
    for word in row.split(' ') {
        words.push(String::from_str(alloc, word)?)?;
    }
    Ok(text_of(alloc, &words)?)
}

fn text_of(alloc: Global, words: &[String]) -> Result<String, AllocError> {
    match read_words(words) {
        Err(Usage) => String::from_str(alloc, "none"),
        Ok(Command::Run { file }) => format!(in alloc; "run {file}"),
        Ok(
            Command::Exec {
                file,
                turns,
                report,
            },
        ) => format!(in alloc; "exec {file} {turns} {report}"),
    }
}

const ROWS: &str = "\
run a.hylo = run 1
run a.hylo --report = none
run a.hylo --turns 5 = none
run a b = none
run = none
 = none
a = none
Run a = none
run  = none
run -a = none
run - = none
exec a = exec 1 1000000000 false
exec a --report = exec 1 1000000000 true
exec a --turns 0 = exec 1 0 false
exec a --turns 7 = exec 1 7 false
exec a --turns 007 = exec 1 7 false
exec a --turns 0000000007 = exec 1 7 false
exec a --turns 00000000007 = none
exec a --turns 00000000001 = none
exec a --turns 4294967296 = exec 1 4294967296 false
exec a --turns 4294967297 = none
exec a --turns 9999999999 = none
exec a --turns +7 = none
exec a --turns -7 = none
exec a --turns 7a = none
exec a --turns  = none
exec a --turns = none
exec a --turns --report = none
exec a --turns 7 --report = exec 1 7 true
exec a --report --turns 7 = exec 1 7 true
exec a --report --report = none
exec a --turns 7 --turns 7 = none
exec a --turns 7 --report --report = none
exec a --report --turns 7 --report = none
exec a --report --turns 7 b = none
exec a b = none
exec a --turns=7 = none
exec a -report = none
exec --report a = none
exec --turns 7 a = none
exec -a = none
exec  = none
exec = none
exec --report = none
stress 7 = none
";

#[test]
fn words_are_a_command_or_none(rt: HostRuntime) -> Result<(), Fail> {
    let alloc = rt.alloc();
    for row in ROWS.lines() {
        let Some((words, want)) = row.rsplit_once(" = ") else {
            continue;
        };
        let got = read(alloc, words)?;
        assert_eq!(rt; got.as_str(), want, "{row}");
    }
    Ok(())
}

#[test]
fn no_words_are_no_command(rt: HostRuntime) -> Result<(), Fail> {
    let words = Vec::new(rt.alloc());
    assert_eq!(rt; read_words(&words), Err(Usage));
    Ok(())
}
