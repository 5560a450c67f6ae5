// Storing a record of 34 bytes as the only lawful block that begins with it.
//
// The record goes into the output with bytes 34 and 35 as 0 and card 4 as what makes every row 0: the record's chip sums. The two label
// sums of that block are then those of card 4's reduced matrix, and bytes 34 and 35 are the two unknowns that make them 0; each is added
// to card 4 as well, so that its row stays 0. Nothing of the output is read before it is written.
#![tactic(auto)]

ghost use Rattle.std.specs.Prelude.{◌≡◌, ℕ, ◌<◌};
ghost use Rattle.answer.specs.Answer.{outcome_answer};
ghost use Rattle.field.specs.Field.{◌⊕◌, ◌·◌};
ghost use Rattle.pairs.specs.Words.{paired};
ghost use Rattle.code.specs.Block.{OneMember, Stored};
ghost use Rattle.code.specs.Labels.{built_in};
ghost use Rattle.store.specs.Steps.{Begun, in_row};
ghost use Rattle.store.specs.Factors.{Factors};
ghost use Rattle.store.specs.Store.{StoreDone};

use answer::Refusal;

// Writes all 45 bytes: the record, two zeros, and card 4. The record goes by way of 34 bytes of our own: they cannot be those that are
// written, so that they are moved in one piece. (Copied from `rec` itself, storing takes 74 instructions more.)
fn begin(rec: &[u8; 34], card: [u8; 9], out: &mut [u8; 45])
    ensures { Begun rec.now card out.new }
{
    let own = *rec;
    out[..34].copy_from_slice(&own);
    out[34] = 0;
    out[35] = 0;
    out[36..].copy_from_slice(&card);
}

// Bytes 34 and 35, 32 digits apart, for the built-in labels: 26 and 136 times the first sum, 243 and 247 times the second.
fn solve(once: u8, squared: u8) -> u64
    ensures { (f g h k : ℕ) → Factors built_in f g h k → result ≡ paired ((once · f) ⊕ (squared · g)) ((once · h) ⊕ (squared · k)) }
{
    let one = u64::from(once);
    let two = u64::from(squared);
    let a = one ^ (one << 32);
    let b = two ^ (two << 32);
    let c = b ^ (b << 1);
    let first = (a << 3) ^ (one << 1) ^ (one << 4) ^ (one << 39);
    let second = c ^ (c << 4) ^ (c << 6) ^ (two << 34);
    pairs::reduce_pair(first ^ second)
}

// Adds e to a byte of card 3 and to the byte of card 4 in its row.
#[tactic(auto, unfolding(crate::specs::Steps::in_row))]
fn add_in_row(out: &mut [u8; 45], p: usize, e: u8)
    requires { p < 36 }
    ensures { out.new ≡ in_row out.old p e }
{
    out[p] = field::add(out[p], e);
    out[p + 9] = field::add(out[p + 9], e);
}

// Writes the record's block into the output.
fn write(rec: &[u8; 34], out: &mut [u8; 45])
    ensures { OneMember (Stored built_in rec.now) out.new }
{
    let s = sums::of_record(rec);
    begin(rec, sums::rows(s), out);
    let v = solve(s.once, s.squared);
    add_in_row(out, 34, pairs::once(v));
    add_in_row(out, 35, pairs::squared(v));
}

// Stores a record. 2: the output is not 45 bytes; 3: the record is not 34.
pub fn store(rec: &[u8], out: &mut [u8]) -> Result<(), Refusal>
    ensures { StoreDone rec.now out.old (outcome_answer result) rec.now out.new }
{
    let Some(block) = out.as_mut_array() else {
        return Err(Refusal::OutputLength);
    };
    let Some(record) = rec.as_array() else {
        return Err(Refusal::RecordLength);
    };
    write(record, block);
    Ok(())
}
