// Tests of numbers.
ghost use Rattle.std.specs.Prelude.{◌≡◌, true, false, not, ◌<◌, eqb};
ghost use Rattle.lists.specs.Tests.{every, distinct};
ghost use Rattle.tables.specs.WellFormed.{whole};

// A nonzero multiple of the page size.
pub fn is_whole(page: u64, n: u64) -> bool
    requires { 0 < page }
    ensures { result ≡ whole page n }
{
    n != 0 && n % page == 0
}

// Each number is above the one before, so that no two are the same.
fn is_rising(numbers: &[u64]) -> bool
    ensures { result ≡ true → distinct numbers.now ≡ true }
{
    numbers.is_sorted_by(|x, y| x < y)
}

// Whether no number of the rest is `x`. Where `x` is not marked, none is.
fn is_apart(is_marked: bool, x: u64, rest: &[u64]) -> bool
    requires { is_marked ≡ false → every (λ y. not (eqb x y)) rest.now ≡ true }
    ensures { result ≡ every (λ y. not (eqb x y)) rest.now }
{
    !is_marked || rest.iter().all(|y| x != *y)
}

// No number twice. Each leaves a mark by its remainder, and only numbers with one remainder are compared: numbers of a driver seldom are.
fn is_spread(numbers: &[u64]) -> bool
    ensures { result ≡ distinct numbers.now }
{
    let mut marks = [false; 1021];
    for i in (0..numbers.len()).rev() {
        let x = numbers[i];
        let at = (x % 1021) as usize;
        if !is_apart(marks[at], x, &numbers[i + 1..]) {
            return false;
        }
        marks[at] = true;
    }
    true
}

// No number twice. Numbers that rise are looked at once, without marks.
pub fn is_distinct(numbers: &[u64]) -> bool
    ensures { result ≡ distinct numbers.now }
{
    is_rising(numbers) || is_spread(numbers)
}
