ghost use Rattle.std.specs.Prelude.{◌≡◌, ◌+◌, ◌≤◌, List, if◌then◌else◌, find, IfSome, IfNone};
ghost use Rattle.std.specs.Str.{bytes_eq};
ghost use Rattle.season_log.specs.Rows.{Shape, IsNoCall};
ghost use Rattle.season_log.specs.Forms.{FormOf, AreForms};

/// How a call is written, and what it does.
#[derive(Clone, Copy)]
pub struct Form {
    /// The first word of its lines.
    pub name: &'static str,
    /// How many berths and files come after the name.
    pub numbers: usize,
    /// Whether a payload comes last.
    pub payload: bool,
    /// As a user is told it.
    pub written: &'static str,
    /// As `govdrez --help` tells it.
    pub does: &'static str,
}

impl Form {
    /// How many words come after the name.
    pub(crate) fn word_count(self) -> usize
        requires { self.numbers ≤ 3 }
        ensures { result ≡ self.numbers + (if self.payload then 1 else 0) }
    {
        self.numbers + usize::from(self.payload)
    }
}

/// The calls that a sealed yard takes, as a user is told them.
pub(crate) const READING: &str = "judge, report and show";

/// How each call but `open` is written.
pub const FORMS: [Form; 10] = [
    Form {
        name: "fork",
        numbers: 2,
        payload: false,
        written: "fork A B",
        does: "berth A gives empty berth B half of its pen, and its copies",
    },
    Form {
        name: "edit",
        numbers: 2,
        payload: true,
        written: "edit A F WORD",
        does: "berth A writes its copy of file F",
    },
    Form {
        name: "judge",
        numbers: 3,
        payload: false,
        written: "judge A B F",
        does: "how A's copy stands against B's: equal, stale, ahead, conflict",
    },
    Form {
        name: "report",
        numbers: 2,
        payload: false,
        written: "report A B",
        does: "the same of all files, as 0, 1, 2, 3, and how many of each",
    },
    Form {
        name: "pull",
        numbers: 2,
        payload: false,
        written: "pull A B",
        does: "berth B takes A's copies where its own are stale",
    },
    Form {
        name: "settle",
        numbers: 3,
        payload: true,
        written: "settle A B F WORD",
        does: "berth B ends the conflict of its copy with A's",
    },
    Form {
        name: "retire",
        numbers: 2,
        payload: false,
        written: "retire A B",
        does: "berth A hands its pen and its copies to berth B",
    },
    Form {
        name: "drop",
        numbers: 1,
        payload: false,
        written: "drop A",
        does: "berth A becomes empty",
    },
    Form {
        name: "seal",
        numbers: 0,
        payload: false,
        written: "seal",
        does: "from here on there are only judge, report and show",
    },
    Form {
        name: "show",
        numbers: 2,
        payload: false,
        written: "show A F",
        does: "the pen of berth A, and the clock of its copy of file F",
    },
];

/// The form of the call of this name.
pub(crate) fn form_of(name: &str) -> Option<Form>
    ensures found { IfSome result (FormOf name.now) }
    ensures few { IfSome result (λ f. f.numbers ≤ 3) }
    ensures none { IfNone result (IsNoCall name.now) }
{
    form_among(&FORMS, name)
}

// The first of these forms that has the name: it is that of one of the calls.
fn form_among(forms: &[Form], name: &str) -> Option<Form>
    ensures first { result ≡ find (λ f. bytes_eq f.name.now name.now) forms.now }
    ensures known { (cs : List Shape) → AreForms cs forms.now → IfSome result (FormOf name.now) }
{
    first_form(forms, name)
}

fn first_form(forms: &[Form], name: &str) -> Option<Form>
    ensures { result ≡ find (λ f. bytes_eq f.name.now name.now) forms.now }
{
    forms.iter().copied().find(|form| form.name == name)
}
