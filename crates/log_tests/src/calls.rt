use crate::DIGEST;
use payload::{Ticket, TicketError, Valve};
use season_log::{Kind, Mistake, Opening, PayloadError, PayloadKind, read_call, read_payload};
use std::fmt::Display;
use std::process::Abort;
use std::test::Fail;
use yard_rules::{Call, Reading, Writing};

#[test]
fn reading_calls_are_read(rt: HostRuntime) {
    let judge = Reading::Judge { a: 0, b: 1, f: 2 };
    reads(&rt, "judge", &["0", "1", "2"], Call::Reads(judge));
    reads(
        &rt,
        "report",
        &["3", "4"],
        Call::Reads(Reading::Report { a: 3, b: 4 }),
    );
    reads(
        &rt,
        "show",
        &["5", "6"],
        Call::Reads(Reading::Show { a: 5, f: 6 }),
    );
    reads(&rt, "seal", &[], Call::Seal);
}

#[test]
fn writing_calls_are_read(rt: HostRuntime) -> Result<(), Fail> {
    writes(&rt, "fork", &["0", "1"], Writing::Fork { a: 0, b: 1 });
    writes(&rt, "pull", &["2", "3"], Writing::Pull { a: 2, b: 3 });
    writes(&rt, "retire", &["4", "5"], Writing::Retire { a: 4, b: 5 });
    writes(&rt, "drop", &["6"], Writing::Drop { a: 6 });
    let edit = Writing::Edit {
        a: 0,
        f: 1,
        payload: Valve::part(40)?,
    };
    writes(&rt, "edit", &["0", "1", "part:40"], edit);
    let settle = Writing::Settle {
        a: 2,
        b: 3,
        f: 4,
        payload: Valve::open(),
    };
    writes(&rt, "settle", &["2", "3", "4", "open"], settle);
    Ok(())
}

fn writes(rt: &impl Abort, name: &str, words: &[&str], call: Writing<Valve>) {
    reads(rt, name, words, Call::Writes(call));
}

fn reads(rt: &impl Abort, name: &str, words: &[&str], call: Call<Valve>) {
    assert!(rt; read_call(name, words).ok() == Some(call), "{name}");
}

#[test]
fn openings_are_read(rt: HostRuntime) -> Result<(), Fail> {
    let opening = Opening::read(&["tree", "valve", "2", "shut", "flow:300"]).ok();
    let opening = opening.ok_or("no opening")?;
    assert!(rt; (opening.kind, opening.payload) == (Kind::Tree, PayloadKind::Valve));
    assert!(rt; opening.berths == 2 && opening.words.len() == 2);
    let opening = Opening::read(&["vector", "ticket", "16"]).ok();
    let opening = opening.ok_or("no opening")?;
    assert!(rt; (opening.kind, opening.payload) == (Kind::Vector, PayloadKind::Ticket));
    assert!(rt; opening.berths == 16 && opening.words.is_empty());
    Ok(())
}

// Each kind of mistake that a line can have, by what a user is told.
#[test]
fn mistakes_are_told(rt: HostRuntime) -> Result<(), Fail> {
    tells(&rt, "forks", &["0", "1"], "no call is named 'forks'")?;
    for words in [["0"].as_slice(), &["0", "1", "2"]] {
        tells(
            &rt,
            "fork",
            words,
            "wrong number of words: the call is written 'fork A B'",
        )?;
    }
    tells(
        &rt,
        "edit",
        &["0", "+1", "shutt"],
        "'+1' should be a number: digits alone, with no leading zero",
    )?;
    tells(
        &rt,
        "drop",
        &["18446744073709551616"],
        "'18446744073709551616' is too large: it does not fit 64 bits",
    )?;
    tells(
        &rt,
        "settle",
        &["0", "1", "2", "shutt"],
        "'shutt' is no valve: write shut, open, part:PERCENT or flow:LITRES",
    )?;
    tells(
        &rt,
        "edit",
        &["0", "1", "part:100"],
        "'part:100' is no valve: a part is 1 to 99 percent",
    )
}

// What only an opening, another kind or a yard can be told.
#[test]
fn other_mistakes_are_told(rt: HostRuntime) -> Result<(), Fail> {
    unopened(
        &rt,
        &["tree", "valve"],
        "wrong number of words: the call is written 'open KIND PAYLOAD BERTHS WORD...'",
    )?;
    unopened(
        &rt,
        &["trees", "valve", "2"],
        "'trees' is no clock kind: write tree or vector",
    )?;
    unopened(
        &rt,
        &["tree", "valves", "2"],
        "'valves' is no payload kind: write valve or ticket",
    )?;
    unopened(
        &rt,
        &["tree", "valve", "", "shut"],
        "'' should be a number: digits alone, with no leading zero",
    )?;
    let word = format!(in rt.alloc(); "{DIGEST}:18446744073709551616")?;
    let error = TicketError::OutOfRange;
    let mistake = Mistake::NotPayload(word.as_str(), PayloadError::Ticket(error));
    assert!(rt; read_payload::<Ticket>(word.as_str()).err() == Some(mistake));
    let mistake = read_payload::<Ticket>("open").err().ok_or("no mistake")?;
    prints(
        &rt,
        &mistake,
        "'open' is no ticket: no colon between digest and length",
    )?;
    prints(
        &rt,
        &Mistake::NoYard("edit"),
        "'edit' needs a yard: no open stands before it, or that was refused",
    )?;
    prints(
        &rt,
        &Mistake::Sealed("edit"),
        "'edit' after seal: a sealed yard answers only judge, report and show",
    )
}

#[test]
fn numbers_are_read(rt: HostRuntime) {
    for (word, number) in [
        ("0", 0),
        ("10", 10),
        ("18446744073709551615", 18446744073709551615),
    ] {
        reads(
            &rt,
            "drop",
            &[word],
            Call::Writes(Writing::Drop { a: number }),
        );
    }
    for word in ["", "01", "00", "+1", "-1", "1e3", "18446744073709551616"] {
        assert!(rt; read_call::<Valve>("drop", &[word]).is_err(), "{word}");
    }
}

fn tells<R: Abort + AllocGlobal>(
    rt: &R,
    name: &str,
    words: &[&str],
    text: &str,
) -> Result<(), Fail> {
    let mistake = read_call::<Valve>(name, words).err();
    prints(rt, &mistake.ok_or("no mistake")?, text)
}

fn unopened<R: Abort + AllocGlobal>(rt: &R, words: &[&str], text: &str) -> Result<(), Fail> {
    prints(rt, &Opening::read(words).err().ok_or("no mistake")?, text)
}

pub(crate) fn prints<R: Abort + AllocGlobal>(
    rt: &R,
    value: &impl Display,
    text: &str,
) -> Result<(), Fail> {
    assert_eq!(rt; format!(in rt.alloc(); "{value}")?.as_str(), text);
    Ok(())
}
