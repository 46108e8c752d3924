// A trace under way: what was counted of the lines that the judge took, the part of a line that was read, and what the last line came to.
ghost use Rattle.std.specs.Prelude.{◌≡◌, ◌+◌, ◌≤◌, ◌<◌, ◌^◌, length, IfOk};

use judge_rules::Verdict;
use judge_steps::Fault;
use std::io;
use std::io::Read;
use summary_counts::Summary;
use trace::{Partial, Reading};

// The bytes of one read at the most.
const CHUNK: usize = 65536;

// kept: one reader for the judge and for a summary would take a trait with a law for each promise of judge_chunks, of which a summary needs none but that a byte
// counts at most one line.
#[derive(Drop)]
pub(crate) struct Reader {
    pub(crate) summary: Summary,
    partial: Partial,
    pub(crate) outcome: Result<(), Fault>,
}

impl Reader {
    ghost use Rattle.summary_stream.specs.Promises.{lines};

    // Before the first line.
    pub(crate) fn new() -> Reader
        ensures { lines result ≡ 0 }
    {
        Reader {
            summary: Summary::new(),
            partial: Partial::fresh(),
            outcome: Ok(()),
        }
    }

    // What a line that was read says.
    fn on_reading(&mut self, reading: Reading)
        requires { lines self.old + 1 < 2 ^ 64 }
        ensures { lines self.new ≤ lines self.old + 1 }
    {
        self.partial = Partial::fresh();
        self.outcome = match reading {
            Reading::Good(l) => self.summary.take(l),
            Reading::Malformed => Err(Fault::Broken(Verdict::R0)),
        };
    }

    // One line of a chunk, or the part of one that stands at its end; the place behind it.
    fn feed_line(&mut self, chunk: &[u8], at: usize) -> usize
        requires { (at < length chunk.now) × (lines self.old + 1 < 2 ^ 64) }
        ensures moved { (at < result) × (result ≤ length chunk.now) }
        ensures lines { lines self.new ≤ lines self.old + 1 }
    {
        let reach = self.partial.scan(chunk, at);
        if reach.ended {
            self.on_reading(reach.partial.finish());
        } else {
            self.partial = reach.partial;
        }
        reach.at
    }

    // A chunk of the bytes. Once a line is refused, or too much, what follows is not read.
    fn feed(&mut self, chunk: &[u8])
        requires { lines self.old + length chunk.now < 2 ^ 64 }
        ensures { lines self.new ≤ lines self.old + length chunk.now }
    {
        let mut at: usize = 0;
        // kept: a turn goes to the end of a line, which the reader finds by place.
        while at < chunk.len() && self.outcome.is_ok() {
            at = self.feed_line(chunk, at);
        }
    }

    // The end of the input: a last line without its line feed counts.
    pub(crate) fn finish(&mut self)
        requires { lines self.old + 1 < 2 ^ 64 }
        ensures { lines self.new ≤ lines self.old + 1 }
    {
        if self.outcome.is_ok() && !self.partial.is_fresh() {
            self.on_reading(self.partial.finish());
        }
    }

    // Reads once and counts what came; how many bytes that were.
    pub(crate) fn serve(&mut self, input: &mut impl Read) -> io::Result<usize>
        requires { lines self.old + 65536 < 2 ^ 64 }
        ensures few { IfOk result (λ count. count ≤ 65536) }
        ensures lines { IfOk result (λ count. lines self.new ≤ lines self.old + count) }
    {
        let mut buf = [0u8; CHUNK];
        let count = input.read(&mut buf)?;
        self.feed(&buf[..count]);
        Ok(count)
    }
}
