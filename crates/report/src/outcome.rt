use fer_events::{Crash, Events, Pairs};
use litmus_syntax::Litmus;
use witness_replay::CrashJudgement;

/// The part that a file plays in a command.
#[derive(Clone, Copy, Debug)]
pub enum Role {
    LitmusFile,
    ModelFile,
    LogFile,
    CrashFile,
}

/// A sync that a repair needs: the number of its event, counted from 1, among those of the repaired test, and a crash of
/// the test without it that answers the question, in the numbers of the repaired test.
#[derive(Debug, Drop)]
pub struct NeedLine {
    pub event: u32,
    pub crash: Crash,
}

/// How much there is of a generated test: the seed and the number of calls that it is generated from, its events, the
/// sites for its syncs, the pairs of its events that have to reach the disk in order, and the sites that a repair keeps.
#[derive(Clone, Copy, Debug)]
pub struct Summary {
    pub seed: u32,
    pub calls: u32,
    pub events: u32,
    pub sites: u32,
    pub pairs: u32,
    pub kept: u32,
}

/// What is answered.
#[derive(Clone, Copy, Debug)]
pub enum Outcome<'a> {
    /// This crash answers the question.
    Allowed {
        crash: &'a Crash,
    },
    /// No crash answers the question.
    Forbidden,
    /// The question is open after so many learned clauses.
    Unknown {
        limit: u32,
    },
    /// The log shows that no crash answers the question, once so many sites have their syncs.
    LogAccepted {
        sites: u32,
    },
    /// The log is refused at a line, 0 standing for the whole file, with the number of the fault's kind.
    LogRefused {
        line: u32,
        kind: u32,
    },
    /// The crash of the crash file answers the question.
    CrashAccepted,
    /// The crash of the crash file doesn't answer the question, for this reason.
    CrashRefused {
        judgement: CrashJudgement,
    },
    /// The crash file has no crash.
    CrashUnread,
    /// The events of a test, and the pairs of them that have to reach the disk in order.
    EventTable {
        events: &'a Events,
        pairs: &'a Pairs,
    },
    /// A litmus test in its canonical text.
    Shown {
        litmus: &'a Litmus,
    },
    /// The syncs that a repair needs, in the order of their events, and the repaired test.
    Repaired {
        needs: &'a [NeedLine],
        litmus: &'a Litmus,
    },
    /// The test with all sites, and a crash of it that answers the question.
    NoneSuffice {
        crash: &'a Crash,
        litmus: &'a Litmus,
    },
    /// How much there is of a generated test.
    Work {
        summary: Summary,
    },
    /// The models that come with Ferrite.
    Models,
    /// The words are no command line.
    Usage,
    /// The litmus file is refused at a line, 0 standing for the whole file, with the number of the fault's kind.
    LitmusRefused {
        line: u32,
        kind: u32,
    },
    /// The model file is refused at a line, 0 standing for the whole file, with the number of the fault's kind.
    ModelRefused {
        line: u32,
        kind: u32,
    },
    /// The file can't be read.
    ReadFault {
        role: Role,
    },
    /// The file isn't there.
    Missing {
        role: Role,
    },
}
