ghost use Rattle.std.specs.Prelude.{◌≡◌, [], IfOk, OnOk};
ghost use Rattle.yard_rules.specs.Judge.{judge_call};
ghost use Rattle.yard_rules.specs.Report.{report_call};
ghost use Rattle.yard_rules.specs.Show.{show_call};
ghost use Rattle.yard_rules.specs.declared.calls.Call.TheVariants.{Reads};
ghost use Rattle.yard_rules.specs.Page.{asked};
ghost use Rattle.season.specs.Held.{outcome_in, leaves_in, said_in};
ghost use Rattle.season.specs.Replays.{Behind, EachBehind, LawfulIn, Tells};

use crate::seasons::Season;
use clock::{Clock, Fault, Verdict};
use payload::Payload;
use yard::{Card, judge, read, report, show};
use yard_rules::{Answer, Reading, Sizes};

impl<K: Card, C: Clock, P: Payload> Season<K, C, P> {
    /// How many berths and files the yard has.
    pub fn sizes(&self) -> Sizes
        ensures { result ≡ self.now.card }
    {
        self.card.sizes()
    }

    /// Carries out any call that reads. The buffer has room for a byte of each
    /// file where the call fills it.
    pub fn read(&self, bytes: &mut [u8], call: Reading) -> Result<Answer<C::Pen, C>, Fault>
        ensures result { let q = asked self.now.card (Reads call) bytes.old in
            outcome_in result self.now bytes.new ≡ said_in C.meaning P.same self.now q }
        ensures edits { let q = asked self.now.card (Reads call) bytes.old in
            ∥ LawfulIn C.meaning P.same self.now q ∥₁ }
        ensures verdicts { Tells C.meaning P.same self.now (Reads call) result bytes.new }
    {
        self.law();
        read(&self.card, &self.berths, &self.copies, bytes, call)
    }

    /// The verdict on berth a's copy of file f against b's.
    pub fn judge(&self, a: usize, b: usize, f: usize) -> Result<Verdict, Fault>
        ensures result { outcome_in result self.now []
            ≡ leaves_in C.meaning P.same self.now (judge_call self.now.card a b f) }
        ensures edits { IfOk result (λ v. ∥ Behind C.meaning P.same self.now a b f v ∥₁) }
    {
        self.law();
        judge(&self.card, &self.berths, &self.copies, a, b, f)
    }

    /// The verdict on each of berth a's copies against b's, into the buffer, and
    /// how many are equal, stale, ahead, in conflict, and twins.
    pub fn report(
        &self,
        bytes: &mut [u8],
        a: usize,
        b: usize,
    ) -> Result<(usize, usize, usize, usize, usize), Fault>
        ensures result { outcome_in result self.now bytes.new
            ≡ leaves_in C.meaning P.same self.now (report_call self.now.card a b bytes.old) }
        ensures edits { OnOk result ∥ EachBehind C.meaning P.same self.now a b bytes.new ∥₁ }
    {
        self.law();
        report(&self.card, &self.berths, &self.copies, bytes, a, b)
    }

    /// The pen of berth a and the clock of its copy of file f.
    pub fn show(&self, a: usize, f: usize) -> Result<(C::Pen, C), Fault>
        ensures result { outcome_in result self.now []
            ≡ leaves_in C.meaning P.same self.now (show_call self.now.card a f) }
    {
        self.law();
        show(&self.card, &self.berths, &self.copies, a, f)
    }
}
