// Replay of an input that stands in memory as a whole, into a lent buffer.
#![tactic(auto)]

ghost use Rattle.std.specs.Prelude.{◌≡◌, true, ◌+◌, ◌≤◌, ◌<◌, ◌^◌, length};
ghost use Rattle.replay_answers.specs.Promises.{KEPT};
ghost use Rattle.replay_waiting.specs.Places.{is_ended, Stands};
ghost use Rattle.replay_whole.specs.Promises.{Adds, Ends, Replays};

use calls::Pool;
use replay_chunks::{LONGEST_LINE, last, turn};
use replay_waiting::Place;
use trace::put_bytes;

// How many bytes are written, and whether these are all.
// kept: `replay` cannot fail, and the bytes that were written are counted either way.
#[derive(Clone, Copy)]
pub struct Replayed {
    pub written: usize,
    pub whole: bool,
}

// A piece of the text goes behind the bytes written so far, as far as it fits.
fn add(piece: &[u8], written: usize, out: &mut [u8]) -> Replayed
    requires { written ≤ length out.old }
    ensures { Adds piece.now written out.old out.new result }
{
    let fitting = piece.len().min(out.len() - written);
    Replayed {
        written: put_bytes(out, written, &piece[..fitting]),
        whole: fitting == piece.len(),
    }
}

// Room for a call: its answers, its log, and its text.
#[derive(Drop)]
struct Room {
    answers: [u64; 2 * replay_answers::KEPT],
    log: [u64; 4 * Pool::LOG],
    text: [u8; (Pool::LOG + 2) * LONGEST_LINE],
}

// Behind the last line feed: the call that waits is run.
fn end(pool: Pool, s: Place, room: &mut Room, written: usize, out: &mut [u8]) -> Replayed
    requires count_bound { s.count ≤ KEPT }
    requires s_value { (is_ended s ≡ true) × (written ≤ length out.old) }
    ensures { Ends pool s room.old.answers written out.old out.new result }
{
    let r = last(pool, s, &room.answers, &mut room.log, &mut room.text);
    add(&room.text[..r.filled], written, out)
}

// The end of the input. A last line that lacks its line feed counts: one is read behind it.
fn finish(pool: Pool, s: Place, room: &mut Room, written: usize, out: &mut [u8]) -> Replayed
    requires stands { Stands s }
    requires line_bound { (s.line + 1 < 2 ^ 64) × (written ≤ length out.old) }
    ensures { Ends pool s room.old.answers written out.old out.new result }
{
    if s.is_ended() {
        return end(pool, s, room, written, out);
    }
    let r = turn(
        pool,
        s,
        b"\n",
        0,
        &mut room.answers,
        &mut room.log,
        &mut room.text,
    );
    let done = add(&room.text[..r.filled], written, out);
    if !done.whole {
        return done;
    }
    end(r.pool, r.place, room, done.written, out)
}

// What replay prints for the input, as far as it fits: the run stops where something does not.
pub fn replay(input: &[u8], out: &mut [u8]) -> Replayed
    ensures { Replays input.now out.old out.new result }
{
    let mut room = Room {
        answers: replay_chunks::answers_buffer(),
        log: replay_chunks::log_buffer(),
        text: replay_chunks::text_buffer(),
    };
    let mut pool = replay_chunks::closed();
    let mut place = Place::first();
    let mut at = 0;
    let mut written = 0;
    // kept: a turn goes to the end of a call, which replay_chunks finds by place.
    while at < input.len() {
        let r = turn(
            pool,
            place,
            input,
            at,
            &mut room.answers,
            &mut room.log,
            &mut room.text,
        );
        let done = add(&room.text[..r.filled], written, out);
        if !done.whole {
            return done;
        }
        pool = r.pool;
        place = r.place;
        at = r.at;
        written = done.written;
    }
    finish(pool, place, &mut room, written, out)
}
