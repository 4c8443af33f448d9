// Why a call or a sheet is refused: the fault, and the line and the task that it is about.
#![tactic(auto)]

ghost use Rattle.std.specs.Prelude.{◌≡◌, ◌↔◌, true};
ghost use Rattle.refusal.specs.Refusals.{plain};
ghost use Rattle.refusal.specs.Table.{row, told, first_of};

// The stage that refuses: reading words, reading lines, filling a plan, judging it, running it, or writing a listing.
#[derive(Clone, Copy, PartialEq, Eq, Debug)]
pub enum Layer {
    Words,
    Lines,
    Plan,
    Judge,
    Run,
    List,
}

// What is wrong. docs/FORMAT.md has the table of all eighteen in words.
#[derive(Clone, Copy, PartialEq, Eq, Debug)]
pub enum Fault {
    SheetTooLong,
    ForeignByte,
    BadWord,
    BadLine,
    TooMany,
    OutOfRange,
    Misfit,
    HoldAboveBlocking,
    NotJudgeable,
    NoWindow,
    NotAccepted,
    NoSuchNumber,
    UnitsNotAllowed,
    BacklogFull,
    HoldNotGranted,
    NothingToEnd,
    JobPending,
    BufferTooShort,
}

// The table of refusals, said fault by fault, so that each row can be held against the pages: a rule of the project.
impl Fault {
    // The number by which listings know the fault.
    pub fn number(self) -> u32
        ensures { result ≡ (row self).number }
    {
        match self {
            Fault::SheetTooLong => 1,
            Fault::ForeignByte => 2,
            Fault::BadWord => 3,
            Fault::BadLine => 4,
            Fault::TooMany => 5,
            Fault::OutOfRange => 6,
            Fault::Misfit => 7,
            Fault::HoldAboveBlocking => 8,
            Fault::NotJudgeable => 9,
            Fault::NoWindow => 10,
            Fault::NotAccepted => 11,
            Fault::NoSuchNumber => 12,
            Fault::UnitsNotAllowed => 13,
            Fault::BacklogFull => 14,
            Fault::HoldNotGranted => 15,
            Fault::NothingToEnd => 16,
            Fault::JobPending => 17,
            Fault::BufferTooShort => 18,
        }
    }

    pub fn layer(self) -> Layer
        ensures { result ≡ (row self).layer }
    {
        match self {
            Fault::SheetTooLong | Fault::ForeignByte | Fault::BadWord => Layer::Words,
            Fault::BadLine => Layer::Lines,
            Fault::TooMany | Fault::OutOfRange | Fault::Misfit | Fault::HoldAboveBlocking =>
                Layer::Plan,
            Fault::NotJudgeable | Fault::NoWindow => Layer::Judge,
            Fault::BufferTooShort => Layer::List,
            _ => Layer::Run,
        }
    }

    // Whether the fault is one of a line of the sheet.
    pub fn has_line(self) -> bool
        ensures { result ≡ (row self).lined }
    {
        match self {
            Fault::ForeignByte | Fault::BadWord | Fault::BadLine => true,
            Fault::TooMany | Fault::OutOfRange | Fault::Misfit | Fault::HoldAboveBlocking => true,
            Fault::NoWindow => true,
            _ => false,
        }
    }

    // Whether the fault can be that of one task.
    pub fn has_task(self) -> bool
        ensures { result ≡ (row self).tasked }
    {
        match self {
            Fault::TooMany | Fault::OutOfRange | Fault::Misfit | Fault::HoldAboveBlocking => true,
            Fault::NoWindow | Fault::UnitsNotAllowed => true,
            Fault::HoldNotGranted | Fault::NothingToEnd | Fault::JobPending => true,
            _ => false,
        }
    }
}

// Of two faults that may be there, the one with the smaller number: where several rules are broken, it is given. If each of the two is
// what is given for one thing, this is what is given for both: `both_broken` of proofs/Firsts.antt proves it, for any rules.
pub fn first_fault(a: Option<Fault>, b: Option<Fault>) -> Option<Fault>
    ensures { result ≡ first_of a b }
{
    match (a, b) {
        (Some(f), Some(g)) if f.number() > g.number() => Some(g),
        (Some(f), _) => Some(f),
        (None, found) => found,
    }
}

// A refusal: the fault, the line of the sheet that it stands on (0 without a sheet, and for the faults that are of no
// line), and the number of the task that was judged, added or named (0 where there is none): numbers, since a listing
// prints the line of the sheet as it is, and a rehearsal prints both.
#[derive(Clone, Copy, PartialEq, Eq, Debug)]
pub struct Refusal {
    pub fault: Fault,
    pub line: u32,
    pub task: u32,
}

impl Refusal {
    // The refusal of a call that is about no line and no task, where no `?` makes it of a fault.
    pub fn plain(fault: Fault) -> Refusal
        ensures { result ≡ plain fault }
    {
        Refusal {
            fault,
            line: 0,
            task: 0,
        }
    }

    // The refusal for a fault that a line and a task are at hand for, of which it keeps those that the fault has.
    pub fn new(fault: Fault, line: u32, task: u32) -> Refusal
        ensures fault { result.fault ≡ fault }
        ensures line { result.line ≡ (told fault line task).line }
        ensures task { result.task ≡ (told fault line task).task }
    {
        let line = if fault.has_line() { line } else { 0 };
        let task = if fault.has_task() { task } else { 0 };
        Refusal { fault, line, task }
    }

    // The same refusal, now with the line of the sheet on which it arose.
    pub fn on_line(self, line: u32) -> Refusal
        ensures fault { result.fault ≡ self.fault }
        ensures line { result.line ≡ (told self.fault line self.task).line }
        ensures task { result.task ≡ (told self.fault line self.task).task }
    {
        Refusal::new(self.fault, line, self.task)
    }

    pub fn number(self) -> u32
        ensures { result ≡ (told self.fault self.line self.task).number }
    {
        self.fault.number()
    }

    pub fn layer(self) -> Layer
        ensures { result ≡ (told self.fault self.line self.task).layer }
    {
        self.fault.layer()
    }
}

// Whether two refusals are the same: what `==` answers, on which tests rest.
pub fn same_refusal(refusal: Refusal, other: Refusal) -> bool
    ensures { (result ≡ true) ↔ (refusal ≡ other) }
{
    refusal == other
}

// A fault that is passed up becomes the refusal that is about no line and no task yet.
impl From<Fault> for Refusal {
    ghost from_gives = { λ f r. r ≡ plain f };

    fn from(fault: Fault) -> Refusal {
        Refusal::plain(fault)
    }
}
