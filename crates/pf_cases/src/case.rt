// A case: a text, words, how source and sinks behave, and what is wanted of the run.
use std::alloc::Global;

/// How the source gives its bytes, and how the two sinks take theirs. The calls that fail are numbered from 1.
#[derive(Drop)]
pub struct Devices {
    /// The most bytes of one read.
    pub read: usize,
    /// The most bytes of one write.
    pub write: usize,
    /// How many bytes the sink of the answer takes in all.
    pub room: usize,
    /// The reads that fail.
    pub failing_reads: Vec<u64>,
    /// The writes and flushes of the answer that fail.
    pub failing_writes: Vec<u64>,
    /// The writes and flushes of the messages that fail.
    pub failing_messages: Vec<u64>,
}

/// What is wanted of a run.
#[derive(Drop)]
pub struct Wanted {
    /// The code of the status.
    pub status: u8,
    /// The output, or what it begins with.
    pub out: Vec<u8>,
    /// Whether the output only begins so.
    pub begins: bool,
    /// The messages.
    pub err: Vec<u8>,
    /// The words that have to confirm the output; none where it is empty.
    pub check: String,
    /// The message of each prefix of the text, from the empty one on; none where any message will do.
    pub prefixes: Vec<Vec<u8>>,
}

/// Which tables are tried after the run.
#[derive(Clone, Copy, Default)]
pub struct Each {
    /// Every prefix of the text is refused.
    pub prefix: bool,
    /// Each read fails in turn.
    pub read: bool,
    /// Each write of the answer and its flush fail in turn.
    pub write: bool,
    /// Each write of the messages and their flush fail in turn.
    pub message: bool,
    /// The text after the problem with one byte changed is no certificate.
    pub byte: bool,
    /// The text after the problem with one field or line changed is no certificate.
    pub change: bool,
}

/// A text, and a run on it.
#[derive(Drop)]
pub struct Case {
    /// The name of the text.
    pub name: Vec<u8>,
    /// The text.
    pub text: Vec<u8>,
    /// The number of the line where the run stands, from 1, and 0 where there is no run yet.
    pub line: u64,
    /// The words, with a space between each two.
    pub words: String,
    /// What stands after the text in this run.
    pub after: Vec<u8>,
    pub devices: Devices,
    pub wanted: Wanted,
    pub each: Each,
}

impl Case {
    /// No text and no run.
    pub fn new(alloc: Global) -> Case {
        Case {
            name: Vec::new(alloc),
            text: Vec::new(alloc),
            line: 0,
            words: String::new(alloc),
            after: Vec::new(alloc),
            devices: usual_devices(alloc),
            wanted: nothing_wanted(alloc),
            each: Each::default(),
        }
    }

    /// Begins a run on the same text.
    pub fn begin(&mut self, alloc: Global, line: u64) {
        self.line = line;
        self.words = String::new(alloc);
        self.after = Vec::new(alloc);
        self.devices = usual_devices(alloc);
        self.wanted = nothing_wanted(alloc);
        self.each = Each::default();
    }
}

// A source that gives 16 bytes at a time, and sinks that take 10; the first has room enough, and nothing fails.
fn usual_devices(alloc: Global) -> Devices {
    Devices {
        read: 16,
        write: 10,
        room: 1 << 20,
        failing_reads: Vec::new(alloc),
        failing_writes: Vec::new(alloc),
        failing_messages: Vec::new(alloc),
    }
}

// An answer that has no byte.
fn nothing_wanted(alloc: Global) -> Wanted {
    Wanted {
        status: 0,
        out: Vec::new(alloc),
        begins: false,
        err: Vec::new(alloc),
        check: String::new(alloc),
        prefixes: Vec::new(alloc),
    }
}
