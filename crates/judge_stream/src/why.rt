// Why the verdict is what it is.
ghost use Rattle.std.specs.Prelude.{◌+◌, ◌≤◌, length};
ghost use Rattle.judge_reasons.specs.Texts.{most_text};

use judge_reasons::{Seen, form_of, put_empty, put_form, put_large, put_reason, put_within, why};
use judge_rules::Verdict;
use judge_steps::State;
use trace::{Line, Reading};

// Behind the input's last read: whether the judge was well then, the lines so far, and what stands behind the last line feed, or the line that was refused.
// kept: what stands behind the last line feed is there either way, so the flag has no value of its own.
#[derive(Clone, Copy)]
pub struct Last<'a> {
    pub well: bool,
    pub lines: u64,
    pub line: &'a [u8],
}

impl Last<'_> {
    // Line `n` is not there: the judge was well behind the last line, or there is nothing behind it.
    fn lacks(&self, n: u64) -> bool {
        self.well && (self.line.is_empty() || self.lines < n && 1 < n - self.lines)
    }

    fn put_rejected(&self, out: &mut [u8], at: usize, state: &State, n: u64, rule: u64) -> usize
        requires { at + most_text ≤ length out.old }
        ensures { result ≤ at + most_text }
    {
        if self.lacks(n) {
            if self.line.is_empty() && self.lines == 0 {
                return put_empty(out, at);
            }
            return put_within(out, at);
        }
        match Line::read(self.line) {
            Reading::Malformed => put_form(out, at, n, form_of(self.line)),
            Reading::Good(l) => put_reason(out, at, n, rule, why(&Seen::of(state), l, rule)),
        }
    }

    // The words with their line feed, none where the trace is accepted. The state is that behind the end of the input.
    pub fn put(&self, out: &mut [u8], at: usize, v: Verdict, state: &State) -> usize
        requires { at + most_text ≤ length out.old }
        ensures { result ≤ at + most_text }
    {
        match v {
            Verdict::Accepted => at,
            Verdict::Rejected(n, rule) => self.put_rejected(out, at, state, n, rule),
            Verdict::Large(n, which) => put_large(out, at, n, which),
        }
    }
}
