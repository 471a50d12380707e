use log_replay::{LineError, LogError, Replay};
use std::io;
use std::test::Fail;

// What a log is answered, and then what is told of the line at which it stops, if it does.
fn answers(rt: &HostRuntime, log: &str) -> io::Result<Vec<u8>> {
    let mut out = Vec::new(rt.alloc());
    let mut replay = Replay::new(rt.alloc());
    match replay.lines(log.as_bytes(), &mut out) {
        Ok(None) => {}
        Ok(Some(told)) => {
            out.extend_from_slice(told.as_bytes())?;
            out.push(b'\n')?;
        }
        Err(_) => return Err(io::Error::from(io::ErrorKind::Other)),
    }
    Ok(out)
}

// The answers before the line stay, nothing after it is carried out, and it is told with its number.
#[test]
fn a_line_that_is_no_call_ends_the_log(rt: HostRuntime) -> Result<(), Fail> {
    let logs = [
        (
            "# a remark\n\n  open   tree valve 1\tshut \nfork 0 0\nprune 0\ndrop 0",
            "open tree valve 1 shut: ok 1 berths 1 files\nfork 0 0: refused 4 berth 0\nline 5: no call is named 'prune'\n",
        ),
        ("prune 0", "line 1: no call is named 'prune'\n"),
        ("\r\n\r\nprune 0\r\n", "line 3: no call is named 'prune'\n"),
        (
            "judge 0 0 0",
            "line 1: 'judge' needs a yard: no open stands before it, or that was refused\n",
        ),
        (
            "open vector valve 1 shut\nopen vector valve 17 shut\nshow 0 0",
            "open vector valve 1 shut: ok 1 berths 1 files\nopen vector valve 17 shut: refused 1\nline 3: 'show' needs a yard: no open stands before it, or that was refused\n",
        ),
        (
            "open tree valve 1 shut\nseal\njudge 0 0 0\nedit 0 0 open",
            "open tree valve 1 shut: ok 1 berths 1 files\nseal: ok\njudge 0 0 0: equal\nline 4: 'edit' after seal: a sealed yard answers only judge, report and show\n",
        ),
        (
            "open tree valve 1 shut\nedit 0 0 part:100",
            "open tree valve 1 shut: ok 1 berths 1 files\nline 2: 'part:100' is no valve: a part is 1 to 99 percent\n",
        ),
        (
            "open tree valve 1 shut\nshow 0 0",
            "open tree valve 1 shut: ok 1 berths 1 files\nshow 0 0: 1 0\n",
        ),
        ("", ""),
    ];
    for (log, want) in logs {
        assert_eq!(rt; answers(&rt, log)?.as_slice(), want.as_bytes(), "at {log}");
    }
    Ok(())
}

// A line that is no text has its number too.
#[test]
fn a_line_that_cannot_be_read_ends_the_log(rt: HostRuntime) -> Result<(), Fail> {
    let log = b"open tree valve 1 shut\n\xff\xfe\nfork 0 0\n";
    let mut out = Vec::new(rt.alloc());
    let stopped = Replay::new(rt.alloc()).lines(log.as_slice(), &mut out);
    let Err(LogError::Unreadable(told)) = stopped else {
        return Err(Fail::from("the line was read"));
    };
    assert!(rt; told.as_str().starts_with("line 2: "));
    assert_eq!(rt;
        out.as_slice(),
        b"open tree valve 1 shut: ok 1 berths 1 files\n".as_slice()
    );
    Ok(())
}

// Whoever goes on after a line that is no call has the yard that there was.
#[test]
fn a_wrong_line_keeps_the_yard(rt: HostRuntime) -> Result<(), Fail> {
    let wrong = [
        "prune 0",
        "edit 0 0",
        "edit 0 x open",
        "edit 0 0 part:100",
        "settle 0 1 0 lid",
        "open",
        "open pear valve 2 shut",
        "open tree lid 2 shut",
        "open tree valve x shut",
        "open vector valve 2 shut lid",
    ];
    for kind in ["open tree valve 2 shut", "open vector valve 2 shut"] {
        let mut out = Vec::new(rt.alloc());
        let mut replay = Replay::new(rt.alloc());
        for line in [kind, "fork 0 1", "edit 1 0 open"] {
            assert!(rt; replay.line(line, &mut out).is_ok());
        }
        out.clear();
        for line in wrong {
            assert!(rt;
                matches!(replay.line(line, &mut out), Err(LineError::Mistake(_))),
                "at {line}"
            );
        }
        assert!(rt; out.is_empty());
        assert!(rt; replay.line("report 0 1", &mut out).is_ok());
        assert!(rt; replay.line("seal", &mut out).is_ok());
        assert!(rt;
            matches!(
                replay.line("fork 0 1", &mut out),
                Err(LineError::Mistake(_))
            )
        );
        assert!(rt; replay.line("judge 1 0 0", &mut out).is_ok());
        assert_eq!(rt;
            out.as_slice(),
            b"report 0 1: 1 | equal 0 stale 1 ahead 0 conflict 0 twins 0\nseal: ok\njudge 1 0 0: ahead\n".as_slice()
        );
    }
    Ok(())
}

// A call whose answer finds no room is carried out all the same.
#[test]
fn an_answer_that_cannot_be_written_is_told(rt: HostRuntime) -> Result<(), Fail> {
    let mut out = Vec::new(rt.alloc());
    let mut replay = Replay::new(rt.alloc());
    for line in ["open tree valve 2 shut", "fork 0 1"] {
        assert!(rt; replay.line(line, &mut out).is_ok());
    }
    let mut room = [0u8; 7];
    let mut short = room.as_mut_slice();
    assert!(rt;
        matches!(
            replay.line("edit 0 0 open", &mut short),
            Err(LineError::Unanswered(_))
        )
    );
    out.clear();
    assert!(rt; replay.line("judge 0 1 0", &mut out).is_ok());
    assert_eq!(rt; out.as_slice(), b"judge 0 1 0: ahead\n".as_slice());
    let mut room = [0u8; 18];
    let mut short = room.as_mut_slice();
    let log = b"edit 1 0 shut\nseal\ndrop 0\n";
    assert!(rt;
        matches!(
            replay.lines(log.as_slice(), &mut short),
            Err(LogError::Unanswered(_))
        )
    );
    assert_eq!(rt; room.as_slice(), b"edit 1 0 shut: ok\n".as_slice());
    out.clear();
    assert!(rt; replay.line("judge 0 1 0", &mut out).is_ok());
    assert_eq!(rt; out.as_slice(), b"judge 0 1 0: conflict\n".as_slice());
    assert!(rt; matches!(replay.line("seal", &mut out), Err(LineError::Mistake(_))));
    Ok(())
}

// 65,535 edits of one copy are answered, the next is refused with 16. A pen of
// vectors has one name after four forks.
#[test]
fn a_count_reaches_its_limit(rt: HostRuntime) -> Result<(), Fail> {
    let seasons: [&[&str]; 2] = [
        &["open tree valve 2 shut"],
        &[
            "open vector valve 5 shut",
            "fork 0 1",
            "fork 0 2",
            "fork 0 3",
            "fork 0 4",
        ],
    ];
    for season in seasons {
        let mut out = Vec::new(rt.alloc());
        let mut replay = Replay::new(rt.alloc());
        for line in season {
            assert!(rt; replay.line(line, &mut out).is_ok());
        }
        for _ in 0..65_535 {
            out.clear();
            assert!(rt; replay.line("edit 0 0 open", &mut out).is_ok());
            assert_eq!(rt; out.as_slice(), b"edit 0 0 open: ok\n".as_slice());
        }
        out.clear();
        assert!(rt; replay.line("edit 0 0 shut", &mut out).is_ok());
        assert_eq!(rt;
            out.as_slice(),
            b"edit 0 0 shut: refused 16 berth 0 file 0\n".as_slice()
        );
    }
    Ok(())
}
