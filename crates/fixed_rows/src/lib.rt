// A list of at most so many rows, which lie in the value itself and are copied with it.
#![tactic(auto)]

ghost use Rattle.std.specs.Prelude.{◌≡◌, ◌+◌, ◌<◌, ◌≤◌, ◌==◌, ◌↔◌, ◌++◌, ◌∷◌, [], length, take, IsOk, OnOk, OnErr, IfErr};
ghost use Rattle.std.specs.Fn.{CalledAtMut};
ghost use Rattle.std.specs.List.Retain.{RetainsInTurn};
ghost use Rattle.fixed_rows.specs.Rows.{rows_len};

use std::marker::Model;
use std::ops::DerefSlice;

// The rows in use come first. What the cells behind them hold, no clause says.
#[derive(Clone, Copy)]
pub struct Rows<T, const N: usize> {
    cells: [T; N],
    len: usize,
}

impl<T, const N: usize> Model for Rows<T, N> {
    ghost use Rattle.std.specs.Prelude.{◌≡◌, ◌≤◌, ◌++◌, length, take, drop};
    ghost use Rattle.fixed_rows.specs.Rows.{Rows as Shown, rows_code};
    ghost use Rattle.fixed_rows.specs.Whole.{cells-whole, len-whole};

    ghost Value = { Shown T };

    ghost coded = { rows_code T.code };

    ghost view = { λ r. record { items = take r.len r.cells; spare = drop r.len r.cells } };

    ghost invariant = { λ r. (r.len ≤ N) × (length r.cells ≡ N) };

    // A copy needs the fields back.
    ghost inverse = { λ v. record { cells = v.items ++ v.spare; len = length v.items } };

    ghost inverse_ok = { λ r h i. record { cells = cells-whole r.len r.cells i; len = len-whole r.len r.cells h.0 h.1 i } };
}

impl<T: Default, const N: usize> Rows<T, N> {
    pub fn new() -> Self
        ensures { result.items ≡ [] }
    {
        Rows {
            cells: Default::default(),
            len: 0,
        }
    }
}

impl<T, const N: usize> Rows<T, N> {
    pub const fn len(&self) -> usize
        ensures value { result ≡ rows_len self.now }
        ensures fits { result ≤ N }
    {
        self.len
    }

    pub const fn is_empty(&self) -> bool
        ensures { result ≡ (rows_len self.now == 0) }
    {
        self.len == 0
    }

    // Whether there is no room left.
    pub const fn is_full(&self) -> bool
        ensures value { result ≡ (rows_len self.now == N) }
        ensures fits { rows_len self.now ≤ N }
    {
        self.len == N
    }

    pub fn as_slice(&self) -> &[T]
        ensures value { result.now ≡ self.now.items }
        ensures fits { length result.now ≤ N }
    {
        &self.cells[..self.len]
    }

    pub fn clear(&mut self)
        ensures { self.new.items ≡ [] }
    {
        self.len = 0;
    }
}

impl<T: Copy, const N: usize> Rows<T, N> {
    // A row more, the last.
    pub fn push(&mut self, row: T)
        requires { rows_len self.old < N }
        ensures items { self.new.items ≡ self.old.items ++ row ∷ [] }
        ensures len { rows_len self.new ≡ rows_len self.old + 1 }
    {
        let len = self.len;
        self.cells[len] = row;
        self.len = len + 1;
    }

    // The same, or the row back where there is no room.
    pub fn try_push(&mut self, row: T) -> Result<(), T>
        ensures variant { IsOk result ↔ (rows_len self.old < N) }
        ensures ok { OnOk result (self.new.items ≡ self.old.items ++ row ∷ []) }
        ensures len { OnOk result (rows_len self.new ≡ rows_len self.old + 1) }
        ensures err { OnErr result (self.new ≡ self.old) }
        ensures full { OnErr result (rows_len self.old ≡ N) }
        ensures row_returned { IfErr result (λ x. x ≡ row) }
    {
        if self.is_full() {
            return Err(row);
        }
        self.push(row);
        Ok(())
    }

    // The rows as they are, and none left in their place.
    pub fn take(&mut self) -> Self
        ensures value { result ≡ self.old }
        ensures after { self.new.items ≡ [] }
    {
        let all = *self;
        self.clear();
        all
    }

    // Keeps the rows to which `stays` says yes, in their order.
    pub fn retain<F: FnMut(&mut T) -> bool>(&mut self, stays: F)
        requires { F.IsAlwaysCallable stays }
        ensures filtered { RetainsInTurn (CalledAtMut F.FnMut) stays self.old.items self.new.items }
        ensures bound { rows_len self.new ≤ rows_len self.old }
    {
        let len = self.len;
        self.len = keep_in_front(&mut self.cells[..len], stays);
    }
}

impl<T, const N: usize> DerefSlice for Rows<T, N> {
    type Elem = T;

    ghost deref_gives = { λ r xs. (xs ≡ r.items) × (length xs ≤ N) };

    fn deref(&self) -> &[T] {
        self.as_slice()
    }
}

// Writes the rows that stay over the first ones, in their order: how many.
fn keep_in_front<T: Copy, F: FnMut(&mut T) -> bool>(rows: &mut [T], mut stays: F) -> usize
    requires { F.IsAlwaysCallable stays }
    ensures filtered { RetainsInTurn (CalledAtMut F.FnMut) stays rows.old (take result rows.new) }
    ensures bound { result ≤ length rows.old }
{
    let mut kept = 0;
    for at in 0..rows.len() {
        if stays(&mut rows[at]) {
            rows[kept] = rows[at];
            kept += 1;
        }
    }
    kept
}
