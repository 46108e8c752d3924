// A run of a trace: the pool, where the run stands, and the buffers of one call.
ghost use Rattle.std.specs.Prelude.{◌≡◌, ◌+◌, ◌≤◌, ◌<◌, ◌^◌, length, IfOk};
ghost use Rattle.replay_waiting.specs.Places.{Stands};
ghost use Rattle.replay_stream.specs.Promises.{Reads};

use crate::{Failure, Prints};
use calls::Pool;
use replay_answers::KEPT;
use replay_chunks::{last, turn};
use replay_table_text::put_tables;
use replay_waiting::Place;
use std::io::{Read, Write};

// The bytes of one read at the most.
const CHUNK: usize = 65536;

// The longest line: a word of nine letters, three tabs, three numbers of twenty digits, a line feed.
const LONGEST_LINE: usize = 73;

// A call has its own line, those of a full log, and its result.
const TEXT: usize = (Pool::LOG + 2) * LONGEST_LINE;

#[derive(Drop)]
pub(crate) struct Run {
    pool: Pool,
    place: Place,
    answers: [u64; 2 * KEPT],
    log: [u64; 4 * Pool::LOG],
    out: [u8; TEXT],
    ghost stands: { Stands place },
}

impl Run {
    // Before the first line.
    pub(crate) fn new() -> Run
        ensures { result.place.line ≡ 1 }
    {
        Run {
            pool: replay_chunks::closed(),
            place: Place::first(),
            answers: replay_chunks::answers_buffer(),
            log: replay_chunks::log_buffer(),
            out: [0; TEXT],
        }
    }

    pub(crate) fn is_over(&self) -> bool {
        self.place.over
    }

    // The front of the buffer.
    fn write(&self, to: &mut impl Write, count: usize) -> Result<(), Failure>
        requires { count ≤ length self.now.out }
    {
        to.write_all(&self.out[..count])
            .map_err(|_| Failure::NotWritten)
    }

    fn write_tables(&mut self, to: &mut impl Write) -> Result<(), Failure>
        ensures { self.new.place ≡ self.old.place }
    {
        let count = put_tables(self.pool.value, &mut self.out, 0);
        self.write(to, count)
    }

    // Prints what a chunk of the input comes to.
    fn drain(&mut self, to: &mut impl Write, prints: Prints, chunk: &[u8]) -> Result<(), Failure>
        requires { self.old.place.line + length chunk.now < 2 ^ 64 }
        ensures { Reads self.old.place (length chunk.now) self.new.place }
    {
        let mut at: usize = 0;
        // kept: a turn goes to the end of the chunk or of a call, which replay_chunks finds by place.
        while at < chunk.len() {
            let step = turn(
                self.pool,
                self.place,
                chunk,
                at,
                &mut self.answers,
                &mut self.log,
                &mut self.out,
            );
            self.pool = step.pool;
            self.place = step.place;
            at = step.at;
            self.write(to, step.filled)?;
            if step.shown && prints == Prints::Tables {
                self.write_tables(to)?;
            }
        }
        Ok(())
    }

    // The end of the input: the call that waits is run. A last line that lacks its line feed counts, so one is read behind it.
    // kept: replay_whole fills a buffer and says what fits, this writes to what may refuse.
    fn finish(&mut self, to: &mut impl Write, prints: Prints) -> Result<(), Failure>
        requires { self.old.place.line + 1 < 2 ^ 64 }
    {
        if !self.place.is_ended() {
            self.drain(to, prints, b"\n")?;
        }
        if self.place.over {
            return Ok(());
        }
        let ran = last(
            self.pool,
            self.place,
            &self.answers,
            &mut self.log,
            &mut self.out,
        );
        self.pool = ran.pool;
        self.write(to, ran.filled)?;
        if ran.shown && prints == Prints::Tables {
            self.write_tables(to)?;
        }
        Ok(())
    }

    // Reads once and prints what came: how many bytes; at the end of the input, what is left.
    pub(crate) fn serve(
        &mut self,
        input: &mut impl Read,
        to: &mut impl Write,
        prints: Prints,
    ) -> Result<usize, Failure>
        requires { self.old.place.line + 65536 < 2 ^ 64 }
        ensures few { IfOk result (λ count. count ≤ 65536) }
        ensures reads { IfOk result (λ count. 0 < count → Reads self.old.place count self.new.place) }
    {
        let mut buf = [0u8; CHUNK];
        let count = input.read(&mut buf).map_err(|_| Failure::NotRead)?;
        if count == 0 {
            self.finish(to, prints)?;
        } else {
            self.drain(to, prints, &buf[..count])?;
        }
        Ok(count)
    }
}
