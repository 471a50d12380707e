//! Tests of a log: the words of payloads, calls, openings and answers, and whole
//! logs, line by line, through the public surface of `payload`, `season_log` and
//! `log_replay`.

#![tactic(auto)]

#[cfg(test)]
mod answers;
#[cfg(test)]
mod calls;
#[cfg(test)]
mod logs;
#[cfg(test)]
mod payloads;

// A digest of 32 bytes, each a different one.
#[cfg(test)]
const DIGEST: &str = "000102030405060708090a0b0c0d0e0f101112131415161718191a1b1c1d1eff";
