use crate::calls::prints;
use clock::Verdict;
use season_log::Reply;
use std::process::Abort;
use std::test::Fail;
use yard_rules::{Answer, Sizes};

// Each form of answer, as a log prints it.
#[test]
fn answers_are_printed(rt: HostRuntime) -> Result<(), Fail> {
    answers(&rt, Answer::Done, "ok")?;
    let sizes = Sizes {
        berths: 2,
        files: 2,
    };
    prints(
        &rt,
        &Reply::<&str, &str>::Opened(sizes),
        "ok 2 berths 2 files",
    )?;
    answers(&rt, Answer::Judged(Verdict::Ahead), "ahead")?;
    let report = Answer::Reported {
        equal: 1,
        stale: 0,
        ahead: 1,
        conflicts: 0,
        twins: 0,
    };
    answers(
        &rt,
        report,
        "0 2 | equal 1 stale 0 ahead 1 conflict 0 twins 0",
    )?;
    let pull = Answer::Pulled {
        taken: 1,
        conflicts: 0,
    };
    told(&rt, pull, 0, 1, "0 1 | taken 1 conflict 0")?;
    let shown = Answer::Shown {
        pen: "(1,0)",
        clock: "(0,1,0)",
    };
    answers(&rt, shown, "(1,0) (0,1,0)")
}

fn answers<R: Abort + AllocGlobal>(
    rt: &R,
    answer: Answer<&str, &str>,
    text: &str,
) -> Result<(), Fail> {
    told(rt, answer, 0, 2, text)
}

// An answer whose buffer begins with these two verdicts, in a yard of two files.
fn told<R: Abort + AllocGlobal>(
    rt: &R,
    answer: Answer<&str, &str>,
    first: u8,
    second: u8,
    text: &str,
) -> Result<(), Fail> {
    let mut bytes = [9; 32];
    (bytes[0], bytes[1]) = (first, second);
    let reply = Reply::Answered {
        answer,
        bytes,
        files: 2,
    };
    prints(rt, &reply, text)
}
