// A page: a lent slice, written from its front on. Every call puts its bytes behind those of the calls before it.
ghost use Rattle.std.specs.Prelude.{◌≡◌, ℕ, ◌+◌, ◌≤◌, [], ◌∷◌, ◌++◌, length, take, get_or};
ghost use Rattle.text.specs.Decimal.{decimal};
ghost use Rattle.text.specs.Filled.{shown, left, filled};

// Copies bytes to a place of a slice: one by one, since the library's copy needs memmove, which a board may not have.
fn copy_to(out: &mut [u8], at: usize, bytes: &[u8])
    requires { at + length bytes.now ≤ length out.old }
    ensures long { length out.new ≡ length out.old }
    ensures front { take (at + length bytes.now) out.new ≡ take at out.old ++ bytes.now }
    ensures behind { (i : ℕ) → at + length bytes.now ≤ i → get_or out.new i 0 ≡ get_or out.old i 0 }
{
    for (k, byte) in bytes.iter().enumerate() {
        out[at + k] = *byte;
    }
}

// A lent slice, and the place in it where the next byte goes: at first its front, so whoever writes behind other bytes lends the part behind them.
#[derive(Drop)]
pub struct Page<'a> {
    out: &'a mut [u8],
    at: usize,
}

impl<'a> Page<'a> {
    ghost use Rattle.text.specs.Paper.{Put, Fits};

    // A page with nothing on it yet.
    pub fn new(out: &'a mut [u8]) -> Page<'a>
        ensures same_reference { result.out.ghost_name ≡ out.entry.ghost_name }
        ensures same { result.out.now ≡ out.old }
        ensures front { result.at ≡ 0 }
    {
        Page { out, at: 0 }
    }

    // How many bytes stand on it.
    pub fn end(&self) -> usize
        ensures { result ≡ self.now.at }
    {
        self.at
    }

    // One byte.
    pub fn byte(&mut self, byte: u8)
        requires { Fits self.old (byte ∷ []) }
        ensures { Put self.old (byte ∷ []) self.new }
    {
        self.out[self.at] = byte;
        self.at += 1;
    }

    // Bytes as they are.
    pub fn bytes(&mut self, bytes: &[u8])
        requires { Fits self.old bytes.now }
        ensures { Put self.old bytes.now self.new }
    {
        copy_to(self.out, self.at, bytes);
        self.at += bytes.len();
    }

    // A number in decimal.
    #[tactic(auto, using(crate::proofs::Decimals::digits))]
    pub fn decimal(&mut self, n: u64)
        requires { Fits self.old (decimal n) }
        ensures { Put self.old (decimal n) self.new }
    {
        if n < 10 {
            return self.byte(b'0' + n as u8);
        }
        self.decimal(n / 10);
        self.byte(b'0' + (n % 10) as u8)
    }

    // One byte of a text with numbers in it: a # is the next of them, while there is one. The numbers that are left come back.
    #[tactic(auto, using(crate::proofs::Fillings::showing))]
    fn shown<'b>(&mut self, byte: u8, numbers: &'b [u32]) -> &'b [u32]
        requires { Fits self.old (shown byte numbers.now) }
        ensures put { Put self.old (shown byte numbers.now) self.new }
        ensures left { result.now ≡ left byte numbers.now }
    {
        match numbers {
            [next, rest @ ..] if byte == b'#' => {
                self.decimal(*next as u64);
                rest
            }
            _ => {
                self.byte(byte);
                numbers
            }
        }
    }

    // A text in which each # is the next of the numbers, in decimal.
    pub fn filled(&mut self, text: &[u8], numbers: &[u32])
        requires { Fits self.old (filled text.now numbers.now) }
        ensures { Put self.old (filled text.now numbers.now) self.new }
    {
        let mut left = numbers;
        for &byte in text {
            left = self.shown(byte, left);
        }
    }
}
