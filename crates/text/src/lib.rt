// Text into a buffer that the caller lends: bytes, numbers in base ten, lines, the line of a set.
#![tactic(auto)]

ghost use Rattle.std.specs.Prelude.{◌≡◌, [], ◌∷◌, ◌+◌, ◌*◌, length};
ghost use Rattle.text.specs.Lines.{decimal, field, line, set_line};
ghost use Rattle.text.specs.Texts.{Room, Added};

// A page that is being written: the buffer, and how many of its bytes the page has so far.
#[derive(Drop)]
pub struct Page<'a> {
    pub out: &'a mut [u8],
    pub len: usize,
}

impl<'a> Page<'a> {
    // A page with nothing written, from the start of a buffer on.
    pub fn of(out: &'a mut [u8]) -> Page<'a>
        ensures buffer { result.out.ghost_name ≡ out.entry.ghost_name }
        ensures empty { (result.len ≡ 0) × (result.out.now ≡ out.old) }
    {
        Page { out: out, len: 0 }
    }

    // A text.
    #[tactic(auto, using(crate::proofs::TextLaws::wrote_copy))]
    pub fn put_text(&mut self, text: &[u8])
        requires { Room self.old (length text.now) }
        ensures { Added self.old self.new text.now }
    {
        let at = self.len;
        let next = at + text.len();
        self.out[at..next].copy_from_slice(text);
        self.len = next;
    }

    // A byte.
    fn put_byte(&mut self, byte: u8)
        requires { Room self.old 1 }
        ensures { Added self.old self.new (byte ∷ []) }
    {
        self.out[self.len] = byte;
        self.len += 1;
    }

    // A number in base ten.
    fn put_decimal(&mut self, n: u32)
        requires { Room self.old 10 }
        ensures { Added self.old self.new (decimal n) }
    {
        let more = 10 <= n;
        if more {
            self.put_decimal(n / 10);
        }
        self.put_byte((48 + n % 10) as u8);
    }

    // A space and a number.
    fn put_field(&mut self, n: u32)
        requires { Room self.old 11 }
        ensures { Added self.old self.new (field n) }
    {
        self.put_byte(b' ');
        self.put_decimal(n);
    }

    // A line: a word, its fields, a line feed.
    pub fn put_line(&mut self, word: &[u8], numbers: &[u32])
        requires { Room self.old (length word.now + 11 * length numbers.now + 1) }
        ensures { Added self.old self.new (line word.now numbers.now) }
    {
        self.put_text(word);
        for &n in numbers {
            self.put_field(n);
        }
        self.put_byte(b'\n');
    }

    // The line of a set: its name, and its members, or `-` where it has none.
    pub fn put_set(&mut self, name: &[u8], n: u8, mask: u64)
        requires { Room self.old (length name.now + 11 * n + 3) }
        ensures { Added self.old self.new (set_line name.now n mask) }
    {
        self.put_text(name);
        let start = self.len;
        for i in 0..n {
            if sets::has(mask, i + 1) {
                self.put_field(i as u32 + 1);
            }
        }
        let none = self.len == start;
        if none {
            self.put_text(b" -");
        }
        self.put_byte(b'\n');
    }
}
