// The window over the last 64 corrected positions, in 64 lent bytes, and the chip that it proposes to mark. Document 02, order 2.
//
// The oldest position comes first, and 255 stands where there is none yet, so that any 64 bytes are a window and nothing has to be kept
// in step with a count.
#![tactic(auto)]

ghost use Rattle.std.specs.Prelude.{◌≡◌, ◌&&◌, not, ◌++◌, ◌+◌, ◌/◌, ◌≤◌, min, length, take, drop, replicate};
ghost use Rattle.base.specs.Base.{least};
ghost use Rattle.answer.specs.Answer.{done};
ghost use Rattle.marks.specs.Marks.{is_marked};
ghost use Rattle.marks.specs.Mark.{card_is};
ghost use Rattle.change.specs.Change.{positions};
ghost use Rattle.window.specs.Window.{fresh_window, added, due, position_below, proposal_of, ClearWindowDone, ProposeDone};
ghost use Rattle.window.specs.Count.{Counts, NextOften};

use answer::Refusal;
use change::Positions;
use marks::Marks;

// A window that holds nothing.
pub fn fresh() -> [u8; 64]
    ensures { result ≡ fresh_window }
{
    [255; 64]
}

// Makes a window hold nothing.
pub fn clear(w: &mut [u8; 64])
    ensures { ClearWindowDone done w.new }
{
    *w = fresh();
}

// ---- adding
// The sixteen bytes from `to + n` on, moved to `to`, by way of sixteen of its own: they cannot be those that are written, so that all are
// moved at once.
fn move_down(w: &mut [u8; 64], to: usize, n: usize)
    requires { to + n + 16 ≤ 64 }
    ensures { w.new ≡ take to w.old ++ (take 16 (drop (to + n) w.old) ++ drop (to + 16) w.old) }
{
    let from = to + n;
    let from_end = from + 16;
    let to_end = to + 16;
    let mut piece = [0u8; 16];
    piece.copy_from_slice(&w[from..from_end]);
    w[to..to_end].copy_from_slice(&piece);
}

// Sixteen bytes and eleven behind them; of these the sixteen after the first n stay.
fn move_last(last: &mut [u8], at: &[u8; 11], n: usize)
    requires { (length last.old ≡ 16) × (n ≤ 11) }
    ensures { last.new ≡ added last.old (take n at.now) }
{
    let mut joined = [0u8; 27];
    joined[..16].copy_from_slice(last);
    joined[16..].copy_from_slice(at);
    let end = n + 16;
    last.copy_from_slice(&joined[n..end]);
}

// The window and the eleven bytes one after the other; of these the 64 after the first n stay. From the front, so that nothing is written
// over before it has been moved.
fn move_on(w: &mut [u8; 64], at: &[u8; 11], n: usize)
    requires { n ≤ 11 }
    ensures { w.new ≡ added w.old (take n at.now) }
{
    move_down(w, 0, n);
    move_down(w, 16, n);
    move_down(w, 32, n);
    move_last(&mut w[48..64], at, n);
}

// Adds positions; as many of the oldest leave. Of a count above eleven the eleven.
pub fn add(w: &mut [u8; 64], ps: Positions)
    ensures { w.new ≡ added w.old (positions ps) }
{
    move_on(w, &ps.at, usize::from(ps.count.min(11)));
}

// ---- proposing
// How often each byte stands there, into 256 zeros: there is a place for every byte, so that none has to be tested for being a position.
#[tactic(auto, using(crate::proofs::Counted::none_counted))]
fn count(w: &[u8; 64], c: &mut [u8; 256])
    requires { c.old ≡ replicate 256 0 }
    ensures { Counts w.now c.new }
{
    for b in w {
        c[usize::from(*b)] += 1;
    }
}

// The first position from p on that is counted four times or more. A function of its own, and not one loop with the marks, since `NextOften`
// of specs/Count.antt and the edit `after_marked_left_out` say where the search goes on.
fn next_often(c: &[u8; 256], p: u8) -> Option<u8>
    ensures { NextOften c.now p result }
{
    for q in p..45 {
        if 4 <= c[usize::from(q)] {
            return Some(q);
        }
    }
    None
}

// Whether neither a position nor its card is marked.
fn is_unmarked(m: Marks, p: u8) -> bool
    ensures { result ≡ not (is_marked m p) && not (card_is m.card (p / 9)) }
{
    !marks::is_marked(m, p) && m.card != Some(p / 9)
}

// The lowest position that stands there four times or more and is unmarked. The marks are looked at only where a position stands there
// often enough.
fn lowest(w: &[u8; 64], m: Marks) -> Option<u8>
    ensures { result ≡ position_below 45 (least 45 (due w.now m)) }
{
    let mut c = [0u8; 256];
    count(w, &mut c);
    let mut p = next_often(&c, 0)?;
    while !is_unmarked(m, p) {
        p = next_often(&c, p + 1)?;
    }
    Some(p)
}

// The chip to mark by what the window holds and the marks in force: the lowest position that stands there four times or more, and is
// neither marked nor on the marked card; or none. No mark is placed. Marks that are not lawful are refused.
#[tactic(auto, using(crate::proofs::Proposed::position_is))]
pub fn propose(w: &[u8; 64], m: Marks) -> Result<Option<u8>, Refusal>
    ensures { ProposeDone w.now m (proposal_of result) w.now }
{
    marks::check(m)?;
    Ok(lowest(w, m))
}
