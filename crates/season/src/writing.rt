ghost use Rattle.std.specs.Prelude.{◌≡◌, [], OnOk};
ghost use Rattle.yard_rules.specs.Fork.{fork_call};
ghost use Rattle.yard_rules.specs.Edit.{edit_call};
ghost use Rattle.yard_rules.specs.Pull.{pull_call};
ghost use Rattle.yard_rules.specs.Settle.{settle_call};
ghost use Rattle.yard_rules.specs.Retire.{retire_call};
ghost use Rattle.yard_rules.specs.Drop.{drop_call};
ghost use Rattle.yard_rules.specs.declared.calls.Call.TheVariants.{Writes};
ghost use Rattle.yard_rules.specs.Page.{asked};
ghost use Rattle.season.specs.Held.{outcome_in, leaves_in, said_in};
ghost use Rattle.season.specs.Replays.{EachBehind, LawfulIn, Tells};

use crate::seasons::Season;
use clock::{Clock, Fault};
use payload::Payload;
use yard::{OpenCard, SealedCard, drop, edit, fork, pull, retire, seal, settle, write};
use yard_rules::{Answer, Writing};

impl<C: Clock, P: Payload> Season<OpenCard, C, P> {
    /// Carries out any call that writes. The buffer has room for a byte of each
    /// file where the call fills it.
    pub fn write(&mut self, bytes: &mut [u8], call: Writing<P>) -> Result<Answer<C::Pen, C>, Fault>
        ensures result { let q = asked self.old.card (Writes call) bytes.old in
            outcome_in result self.new bytes.new ≡ said_in C.meaning P.same self.old q }
        ensures edits { let q = asked self.old.card (Writes call) bytes.old in
            ∥ LawfulIn C.meaning P.same self.old q ∥₁ }
        ensures verdicts { Tells C.meaning P.same self.old (Writes call) result bytes.new }
        ensures card { self.new.card ≡ self.old.card }
    {
        self.law();
        write(&self.card, &mut self.berths, &mut self.copies, bytes, call)
    }

    /// Working berth a gives empty berth b half of its pen, and its copies.
    pub fn fork(&mut self, a: usize, b: usize) -> Result<(), Fault>
        ensures result { outcome_in result self.new []
            ≡ leaves_in C.meaning P.same self.old (fork_call self.old.card a b) }
        ensures card { self.new.card ≡ self.old.card }
    {
        self.law();
        fork(&self.card, &mut self.berths, &mut self.copies, a, b)
    }

    /// Working berth a writes the payload into its copy of file f.
    pub fn edit(&mut self, a: usize, f: usize, payload: P) -> Result<(), Fault>
        ensures result { outcome_in result self.new []
            ≡ leaves_in C.meaning P.same self.old (edit_call self.old.card a f payload) }
        ensures card { self.new.card ≡ self.old.card }
    {
        self.law();
        edit(&self.card, &self.berths, &mut self.copies, a, f, payload)
    }

    /// Working berth b takes a's copies where its own are stale. The buffer gets
    /// the verdict on b's copies against a's beforehand. Answers how many were
    /// taken, and how many files are in conflict.
    pub fn pull(&mut self, bytes: &mut [u8], a: usize, b: usize) -> Result<(usize, usize), Fault>
        ensures result { outcome_in result self.new bytes.new
            ≡ leaves_in C.meaning P.same self.old (pull_call self.old.card a b bytes.old) }
        ensures edits { OnOk result ∥ EachBehind C.meaning P.same self.old b a bytes.new ∥₁ }
        ensures card { self.new.card ≡ self.old.card }
    {
        self.law();
        pull(&self.card, &self.berths, &mut self.copies, bytes, a, b)
    }

    /// Working berth b ends the conflict of its copy of file f with a's.
    pub fn settle(&mut self, a: usize, b: usize, f: usize, payload: P) -> Result<(), Fault>
        ensures result { outcome_in result self.new []
            ≡ leaves_in C.meaning P.same self.old (settle_call self.old.card a b f payload) }
        ensures card { self.new.card ≡ self.old.card }
    {
        self.law();
        settle(&self.card, &self.berths, &mut self.copies, a, b, f, payload)
    }

    /// Working berth a hands its pen and its copies to working berth b.
    pub fn retire(&mut self, a: usize, b: usize) -> Result<(), Fault>
        ensures result { outcome_in result self.new []
            ≡ leaves_in C.meaning P.same self.old (retire_call self.old.card a b) }
        ensures card { self.new.card ≡ self.old.card }
    {
        self.law();
        retire(&self.card, &mut self.berths, &mut self.copies, a, b)
    }

    /// Berth a becomes empty.
    pub fn drop(&mut self, a: usize) -> Result<(), Fault>
        ensures result { outcome_in result self.new []
            ≡ leaves_in C.meaning P.same self.old (drop_call self.old.card a) }
        ensures card { self.new.card ≡ self.old.card }
    {
        self.law();
        drop(&self.card, &mut self.berths, &self.copies, a)
    }

    /// Seals the yard: from now on it only reads.
    pub fn seal(self) -> Season<SealedCard, C, P>
        ensures { result ≡ self }
    {
        Season {
            card: seal(self.card),
            berths: self.berths,
            copies: self.copies,
        }
    }
}
