// Text put into lent bytes from a place on, as far as there is room: specs/Put.antt. Where there is no room, nothing is written.
#![tactic(auto)]

ghost use Rattle.std.specs.Prelude.{◌++◌};
ghost use Rattle.text.specs.Text.{ascii, decimal};
ghost use Rattle.text.specs.Put.{Added};

// The lent bytes, and the place where the next piece of text goes.
#[derive(Drop)]
pub struct Text<'a> {
    pub out: &'a mut [u8],
    pub at: usize,
}

// No fmt::Write: `write!` gives a Result whose Err nothing rules out, and putting text can't fail.
impl<'a> Text<'a> {
    // The word, the number and the newline.
    pub fn number_line(&mut self, word: &[u8], n: u64)
        ensures { Added (word.now ++ (decimal n ++ ascii "\n")) self.old self.new }
    {
        self.labelled(word, n);
        self.put(b"\n");
    }

    // The word and the number.
    pub fn labelled(&mut self, word: &[u8], n: u64)
        ensures { Added (word.now ++ decimal n) self.old self.new }
    {
        self.put(word);
        self.number(n);
    }

    // The digits of a number.
    pub fn number(&mut self, n: u64)
        ensures { Added (decimal n) self.old self.new }
    {
        let mut digits = [0u8; 20];
        let k = io::decimal(n, &mut digits);
        self.put(&digits[..k]);
    }

    // The bytes of a piece as they are.
    pub fn put(&mut self, piece: &[u8])
        ensures { Added piece.now self.old self.new }
    {
        let out = &mut *self.out;
        if self.at < out.len() {
            let room = piece.len().min(out.len() - self.at);
            out[self.at..self.at + room].copy_from_slice(&piece[..room]);
            self.at += room;
        }
    }
}
