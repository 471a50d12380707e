use crate::DIGEST;
use payload::{Payload, Ticket, TicketError, Valve, ValveError};
use std::alloc::Global;
use std::test::Fail;

// A part that fits no number of the machine.
const LARGE: &str = "part:99999999999999999999";

// Every kind of valve, in the words of a log, against every kind.
#[test]
fn valves_are_alike(rt: HostRuntime) -> Result<(), Fail> {
    let words = [
        "shut",
        "open",
        "part:1",
        "part:99",
        "flow:0",
        "flow:1",
        "flow:99",
        "flow:9999",
    ];
    for a in words {
        let first = a.parse::<Valve>()?;
        assert_eq!(rt; format!(in rt.alloc(); "{first}")?.as_str(), a);
        for b in words {
            assert!(rt; first.alike(&b.parse::<Valve>()?) == (a == b));
        }
    }
    Ok(())
}

#[test]
fn valves_are_refused() -> Result<(), Fail> {
    refused(
        ["", "Shut", "shut:", "open:1", "part", ":5"],
        ValveError::UnknownWord,
    )?;
    refused(
        [
            "part:", "part:07", "part:+5", "part:4:0", "flow:-1", "flow:1e3",
        ],
        ValveError::NotNumber,
    )?;
    refused(
        [
            "part:0",
            "part:100",
            "part:101",
            "part:256",
            "part:65537",
            LARGE,
        ],
        ValveError::PartRange,
    )?;
    refused(
        [
            "flow:10000",
            "flow:10001",
            "flow:65535",
            "flow:65536",
            "flow:65537",
            "flow:99999999999999999999",
        ],
        ValveError::FlowRange,
    )
}

fn refused(words: [&str; 6], error: ValveError) -> Result<(), Fail> {
    for word in words {
        if word.parse::<Valve>().err() != Some(error) {
            Err("a word is not refused so")?;
        }
    }
    Ok(())
}

// Tickets that differ in one byte, or only in length.
#[test]
fn tickets_are_alike(rt: HostRuntime) {
    let ticket = Ticket::new([7; 32], 300);
    assert!(rt; ticket.alike(&Ticket::new([7; 32], 300)));
    assert!(rt; !ticket.alike(&Ticket::new([7; 32], 301)));
    for i in [0, 1, 15, 30, 31] {
        let mut digest = [7; 32];
        digest[i] = 8;
        assert!(rt; !ticket.alike(&Ticket::new(digest, 300)));
    }
}

#[test]
fn tickets_are_read(rt: HostRuntime) -> Result<(), Fail> {
    for length in ["0", "300", "18446744073709551615"] {
        let word = format!(in rt.alloc(); "{DIGEST}:{length}")?;
        let ticket = word.parse::<Ticket>()?;
        assert!(rt; ticket.digest()[10] == 10 && ticket.digest()[31] == 255);
        assert_eq!(rt; format!(in rt.alloc(); "{ticket}")?.as_str(), word.as_str());
    }
    Ok(())
}

#[test]
fn tickets_are_refused(rt: HostRuntime) -> Result<(), Fail> {
    let heap = rt.alloc();
    assert_eq!(rt; DIGEST.parse::<Ticket>().err(), Some(TicketError::NoColon));
    for digest in ["", "00", "z"] {
        no_ticket(heap, digest, "1", TicketError::NotDigest)?;
    }
    for end in ["A", "g", "00", ""] {
        let digest = format!(in heap; "{}{end}", &DIGEST[0..63])?;
        no_ticket(heap, digest.as_str(), "1", TicketError::NotDigest)?;
    }
    for length in ["", "007", "+7", "0x7"] {
        no_ticket(heap, DIGEST, length, TicketError::NotNumber)?;
    }
    no_ticket(
        heap,
        DIGEST,
        "18446744073709551616",
        TicketError::OutOfRange,
    )
}

fn no_ticket(heap: Global, digest: &str, length: &str, error: TicketError) -> Result<(), Fail> {
    let word = format!(in heap; "{digest}:{length}")?;
    if word.parse::<Ticket>().err() != Some(error) {
        Err(word)?;
    }
    Ok(())
}
