// The screen that a summary prints.
ghost use Rattle.std.specs.Prelude.{◌+◌, ◌<◌, ◌^◌};

use judge_rules::{Run, Verdict};
use judge_steps::Fault;
use std::fmt;
use std::fmt::Write;
use summary_counts::{Counts, HandOver, Peak, Summary, Times, zombie_pages};

const CALLS: [&str; 4] = ["open", "malloc", "free", "close"];

// docs/RULES.md 4.1, in words.
fn meaning(number: usize) -> &'static str {
    match number {
        0 => "done",
        1 => "pool closed",
        2 => "pool stopped",
        3 => "pool not well formed",
        4 => "log too short",
        5 => "event ids spent",
        6 => "bad size",
        7 => "regions and buffers full",
        8 => "larger than a reservation",
        9 => "pages full",
        10 => "zombies full",
        11 => "reservations full",
        12 => "reserve failed",
        13 => "out of memory",
        14 => "driver failed",
        15 => "incredible driver answer",
        16 => "invalid pointer",
        17 => "driver answers ran out",
        19 => "bad configuration",
        _ => "no answer of the pool",
    }
}

// The word of a kind at which a line can fail.
fn word(kind: usize) -> &'static str {
    match kind {
        1 => "reserve",
        2 => "create",
        3 => "map",
        4 => "access",
        5 => "unmap",
        6 => "release",
        7 => "record",
        8 => "asked",
        9 => "wait",
        10 => "sync",
        11 => "giveback",
        17 => "small",
        _ => "dropsmall",
    }
}

fn table_name(which: u64) -> &'static str {
    match which {
        Verdict::RESERVATIONS => "reservations",
        Verdict::HELD_HANDLES => "handles held",
        Verdict::LIVE_BUFFERS => "live buffers",
        _ => "mapped pages",
    }
}

// An answer number, and what it says.
// kept: a part of the screen is no value of its own, so a `Display` would take a struct for each.
fn put_said(f: &mut impl Write, number: usize) -> fmt::Result {
    if number == Counts::OTHER_NUMBER {
        return write!(f, "  {:<32}", "20 or more");
    }
    let meaning = meaning(number);
    write!(f, "{number:>4}  {meaning:<28}")
}

fn put_answer(f: &mut impl Write, call: &str, number: usize, times: Times) -> fmt::Result {
    write!(f, "  {call:<8}")?;
    put_said(f, number)?;
    writeln!(f, "{:>10}{:>16}", times.count, times.first)
}

// The answers that were given, each with the line of the first.
fn put_answers(f: &mut impl Write, answers: &[Times]) -> fmt::Result {
    writeln!(
        f,
        "answers   number                                 times   first at line"
    )?;
    for (call, numbers) in CALLS.iter().zip(answers.chunks_exact(Counts::PER_CALL)) {
        for (number, times) in numbers.iter().enumerate() {
            if times.count != 0 {
                put_answer(f, call, number, *times)?;
            }
        }
    }
    Ok(())
}

// The driver lines that failed, by word.
fn put_failures(f: &mut impl Write, failures: &[u64]) -> fmt::Result {
    writeln!(f, "failed driver lines                              times")?;
    let mut none = true;
    for (kind, times) in failures.iter().enumerate().skip(1) {
        if *times != 0 {
            none = false;
            writeln!(f, "  {:<9}{times:>43}", word(kind))?;
        }
    }
    if none {
        writeln!(f, "  none")?;
    }
    Ok(())
}

fn put_peak(f: &mut impl Write, label: &str, peak: Peak) -> fmt::Result {
    writeln!(f, "  {label:<20}{:>32}{:>16}", peak.most, peak.line)
}

fn put_peaks(f: &mut impl Write, counts: &Counts) -> fmt::Result {
    writeln!(
        f,
        "peaks                                            bytes   first at line"
    )?;
    put_peak(f, "live", counts.live)?;
    put_peak(f, "mapped", counts.mapped)
}

fn put_amount(f: &mut impl Write, label: &str, amount: usize) -> fmt::Result {
    writeln!(f, "  {label:<20}{amount:>32}")
}

// What stands behind the last line that the judge took.
fn put_rest(f: &mut impl Write, summary: &Summary) -> fmt::Result {
    let standing = summary.standing;
    let zombies = zombie_pages(summary.state.mapped.as_slice());
    writeln!(f, "at the end")?;
    put_amount(f, "reservations", standing.reservations)?;
    put_amount(f, "handles held", standing.held)?;
    put_amount(f, "mapped pages", standing.mapped)?;
    put_amount(f, "zombies left", zombies)?;
    put_amount(f, "live buffers", summary.handed.len())
}

// The live buffers, the oldest first, each with the line of its hand-over.
fn put_live(f: &mut impl Write, handed: &[HandOver]) -> fmt::Result {
    if handed.is_empty() {
        return Ok(());
    }
    writeln!(
        f,
        "live buffers   address                 size               stream  since line"
    )?;
    for buffer in handed {
        writeln!(
            f,
            "{:>22}{:>21}{:>21}{:>12}",
            buffer.start, buffer.size, buffer.stream, buffer.line
        )?;
    }
    Ok(())
}

// The judge took every line.
fn put_ending(f: &mut impl Write, run: Run, lines: u64) -> fmt::Result
    requires { lines + 1 < 2 ^ 64 }
{
    if !run.opened {
        return writeln!(f, "stopped at line {}: the input has no line", lines + 1);
    }
    if run.waiting {
        return writeln!(
            f,
            "stopped at line {}: the input ends inside a call",
            lines + 1
        );
    }
    writeln!(f, "the judge accepts all {lines} lines")
}

// How the trace ends.
fn put_verdict(f: &mut impl Write, outcome: Result<(), Fault>, run: Run, lines: u64) -> fmt::Result
    requires { lines + 1 < 2 ^ 64 }
{
    match outcome {
        Ok(()) => put_ending(f, run, lines),
        Err(Fault::Broken(rule)) => writeln!(
            f,
            "stopped at line {}: the judge rejects it by rule {rule}",
            lines + 1
        ),
        Err(Fault::Beyond(which)) => writeln!(
            f,
            "stopped at line {}: too large for the judge, by its {}",
            lines + 1,
            table_name(which)
        ),
    }
}

pub(crate) fn put_screen(
    f: &mut impl Write,
    summary: &Summary,
    outcome: Result<(), Fault>,
) -> fmt::Result
    requires { summary.now.counts.lines + 1 < 2 ^ 64 }
{
    let counts = &summary.counts;
    put_answers(f, &counts.answers)?;
    put_failures(f, &counts.failures)?;
    put_peaks(f, counts)?;
    put_rest(f, summary)?;
    put_live(f, summary.handed.as_slice())?;
    put_verdict(f, outcome, summary.standing.run, counts.lines)
}
