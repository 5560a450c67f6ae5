// What a reading changes in a block: a card's nine rows and two further chips, eleven places at most, and no second block.
//
// A sum is exclusive or, so that a change is made by adding it, and made twice it is undone.
#![tactic(auto)]

ghost use Rattle.std.specs.Prelude.{◌≡◌, ◌&&◌, ◌+◌, ◌*◌, ◌≤◌, ltb, length};
ghost use Rattle.base.specs.Base.{bit, tally, only, those};
ghost use Rattle.change.specs.Change.{applied, no_change, nonzero, nonzero_at, row_test, ordered, Counted, Listed, Pushed, AddedAt, RowsAdded};

// What is added: to a card its nine rows, e at position p and f at position q.
#[derive(Clone, Copy, Default)]
pub struct Change {
    pub card: u8,
    pub rows: [u8; 9],
    pub p: u8,
    pub e: u8,
    pub q: u8,
    pub f: u8,
}

// Positions: the first `count` of `at`. Not an `ArrayVec`: the window moves all eleven bytes at once, by a constant length, where a part of
// `count` bytes would be a call of memmove; and it takes positions with any count.
#[derive(Clone, Copy)]
pub struct Positions {
    pub count: u8,
    pub at: [u8; 11],
}

// The change that adds nothing.
pub fn no_change() -> Change
    ensures { result ≡ no_change }
{
    Change::default()
}

// ---- counted
// How many of nine rows are changed. By a `for`: a chain of `filter` and `count` took 40 instructions more in a reading, and one of any damage
// is held to 960.
fn count_rows(rows: [u8; 9]) -> u8
    ensures { result ≡ tally 9 (nonzero_at rows) }
{
    let mut n = 0;
    for row in rows {
        n += u8::from(row != 0);
    }
    n
}

// How many bytes a change changes. Of one that is not well formed: how many of its places add something.
pub fn count(d: Change) -> u8
    ensures { Counted d result }
{
    count_rows(d.rows) + u8::from(d.e != 0) + u8::from(d.f != 0)
}

// ---- listed
impl Positions {
    // Puts p after those that are there, where v is added at it and here is its place.
    fn push(&mut self, v: u8, p: u8, here: bool)
        requires { self.old.count + bit (nonzero v && here) ≤ 11 }
        ensures { Pushed (only (nonzero v && here) p) self.old self.new }
    {
        if v != 0 && here {
            self.at[usize::from(self.count)] = p;
            self.count += 1;
        }
    }

    // The same for the chips of card j that rows are added to. By an index, as in `add_rows`: positions beside rows by `zip` prove and take no
    // more, but audit/buffers.py, which looks into all that a reading calls, finds no body of such an iterator's drop. `as`, since i is below
    // 9, and a `try_from` would have an Err that cannot come.
    fn push_rows(&mut self, j: u8, rows: [u8; 9])
        requires { self.old.count + 9 ≤ 11 }
        ensures { Pushed (those (9 * j) 9 (row_test rows)) self.old self.new }
    {
        if 4 < j {
            return;
        }
        for (i, row) in rows.iter().enumerate() {
            self.push(*row, 9 * j + i as u8, true);
        }
    }
}

// Whether p stands before the chips of card j.
fn is_before(j: u8, p: u8) -> bool
    ensures { result ≡ ltb p (9 * j) }
{
    u32::from(p) < 9 * u32::from(j)
}

// The same change with p not above q.
fn in_order(d: Change) -> Change
    ensures { result ≡ ordered d }
{
    if d.q < d.p {
        return Change {
            p: d.q,
            e: d.f,
            q: d.p,
            f: d.e,
            ..d
        };
    }
    d
}

// The positions that a change changes, lowest first: p and q where they stand before the card's chips, the card's, and p and q after them.
// Of one that is not well formed: its places that add something, in this order.
pub fn changed(d: Change) -> Positions
    ensures { Listed d result }
{
    let o = in_order(d);
    let j = o.card;
    let p_before = is_before(j, o.p);
    let q_before = is_before(j, o.q);
    let mut found = Positions {
        count: 0,
        at: [0; 11],
    };
    found.push(o.e, o.p, p_before);
    found.push(o.f, o.q, q_before);
    found.push_rows(j, o.rows);
    found.push(o.e, o.p, !p_before);
    found.push(o.f, o.q, !q_before);
    found
}

// ---- made
// Adds x to the byte at a position, if there is one.
fn add_at(block: &mut [u8], at: usize, x: u8)
    ensures { AddedAt at x block.old block.new }
{
    if at < block.len() {
        block[at] = field::add(block[at], x);
    }
}

// Adds the rows to card j, if there is one.
fn add_rows(block: &mut [u8], j: u8, rows: [u8; 9])
    requires { length block.old ≡ 45 }
    ensures { RowsAdded j rows block.old block.new }
{
    if 4 < j {
        return;
    }
    let start = 9 * usize::from(j);
    for (row, x) in rows.iter().enumerate() {
        block[start + row] = field::add(block[start + row], *x);
    }
}

// Makes the change in the block that is lent. What is not 45 bytes is no block, and stays as it is.
pub fn apply(block: &mut [u8], d: Change)
    ensures { block.new ≡ applied block.old d }
{
    if block.len() != 45 {
        return;
    }
    add_rows(block, d.card, d.rows);
    add_at(block, usize::from(d.p), d.e);
    add_at(block, usize::from(d.q), d.f);
}
