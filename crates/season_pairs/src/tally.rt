use edit_model::Answer;
use std::io;

/// Counts of what was run and compared.
#[derive(Clone, Copy)]
pub struct Tally {
    pub calls: usize,
    pub accepted: usize,
    /// Refused calls, by the number of the cause.
    pub refused: [usize; 17],
    /// Verdicts that were compared, by their number.
    pub verdicts: [usize; 4],
    /// Pens and clocks that were compared as words.
    pub words: usize,
}

impl Tally {
    /// Nothing yet.
    pub fn none() -> Tally {
        Tally {
            calls: 0,
            accepted: 0,
            refused: [0; 17],
            verdicts: [0; 4],
            words: 0,
        }
    }

    /// One more call, with this answer.
    pub fn count(&mut self, answer: &Answer) {
        self.calls = self.calls.saturating_add(1);
        if let Answer::Refused(refusal) = answer {
            if let Some(count) = self.refused.get_mut(refusal.cause as usize) {
                *count = count.saturating_add(1);
            }
        } else {
            self.accepted = self.accepted.saturating_add(1);
        }
        match answer {
            Answer::Verdict(verdict) => self.count_verdict(*verdict, 1),
            Answer::Counts(equal, stale, ahead, conflicts, _) => {
                for (verdict, count) in [*equal, *stale, *ahead, *conflicts].iter().enumerate() {
                    self.count_verdict(verdict as u8, *count);
                }
            }
            _ => {}
        }
    }

    /// So many more verdicts of this number.
    pub fn count_verdict(&mut self, verdict: u8, more: usize) {
        if let Some(count) = self.verdicts.get_mut(verdict as usize) {
            *count = count.saturating_add(more);
        }
    }

    /// One more word.
    pub fn count_word(&mut self) {
        self.words = self.words.saturating_add(1);
    }

    /// Adds another tally.
    pub fn add(&mut self, other: &Tally) {
        self.calls = self.calls.saturating_add(other.calls);
        self.accepted = self.accepted.saturating_add(other.accepted);
        self.words = self.words.saturating_add(other.words);
        for (count, more) in self.refused.iter_mut().zip(&other.refused) {
            *count = count.saturating_add(*more);
        }
        for (count, more) in self.verdicts.iter_mut().zip(&other.verdicts) {
            *count = count.saturating_add(*more);
        }
    }

    /// Prints the counts, below a line that says what was run.
    pub fn print(&self, rt: &impl Print) -> io::Result<()> {
        let Tally {
            calls,
            accepted,
            ..
        } = *self;
        print!(rt; "  {calls} calls: {accepted} accepted; refused")?;
        self.print_refused(rt)?;
        self.print_compared(rt)
    }

    fn print_refused(&self, rt: &impl Print) -> io::Result<()> {
        for (cause, count) in self.refused.iter().enumerate() {
            if *count > 0 {
                print!(rt; " {cause}:{count}")?;
            }
        }
        println!(rt; "")
    }

    fn print_compared(&self, rt: &impl Print) -> io::Result<()> {
        let [equal, stale, ahead, conflict] = self.verdicts;
        let words = self.words;
        println!(rt;
            "  verdicts compared: {equal} equal, {stale} stale, {ahead} ahead, {conflict} conflict; {words} pens and clocks"
        )
    }
}
