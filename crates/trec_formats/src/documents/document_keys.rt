//! The keys by which a table finds documents. The key of a topic is its hash by the table's secret.
//! That of a docno is a sum: of its words of four bytes, of its last bytes and of its length, each
//! times a factor that follows from the secret. Of the sum the upper half counts, so whatever
//! docnos a stranger sends, two of them share a key by a chance of about 1 in 2^31. A word takes
//! one product, and a hash some ten times as much.
ghost use Rattle.std.specs.Prelude.{◌≡◌, ◌≤◌, ◌+◌, ◌/◌, length};
ghost use Rattle.decimal_rank.specs.Tables.TextKeys.{text_key};
ghost use Rattle.trec_formats.specs.DocnoKeys.{word_at, last_word, sum_of, docno_key};

use decimal_rank::Secret;

/// The most bytes of a docno that is summed up: no docno of a text has more.
const MOST_BYTES: usize = 64;

/// As many words as these bytes make.
const WORDS: usize = 16;

/// So few lines need no factors: even in one bucket they are soon compared.
const FEW_LINES: usize = 8;

/// What the keys of a table are made by.
#[derive(Clone, Copy)]
pub(crate) struct DocumentKeys {
    secret: Secret,
    /// By the place of a word.
    factors: [u64; WORDS],
    last_factor: u64,
    length_factor: u64,
}

impl DocumentKeys {
    /// The keys of a table of so many lines.
    pub(crate) fn drawn(lines: usize) -> DocumentKeys {
        let mut keys = DocumentKeys {
            secret: Secret::drawn(),
            factors: [0; WORDS],
            last_factor: 0,
            length_factor: 0,
        };
        if lines > FEW_LINES {
            keys.draw_factors();
        }
        keys
    }

    fn draw_factors(&mut self) {
        for i in 0..WORDS {
            self.factors[i] = self.secret.key_of(&[i as u8]);
        }
        self.last_factor = self.secret.key_of(b"last");
        self.length_factor = self.secret.key_of(b"length");
    }

    pub(crate) fn of_topic(&self, topic: &[u8]) -> u64
        ensures { result ≡ text_key self.now.secret topic.now }
    {
        self.secret.key_of(topic)
    }

    /// The key of a docno. A longer one than a text may have is hashed.
    pub(crate) fn of_docno(&self, docno: &[u8]) -> u64
        ensures { result ≡ docno_key self.now docno.now }
    {
        if docno.len() > MOST_BYTES {
            return self.secret.key_of(docno);
        }
        let last = self.last_factor.wrapping_mul(last_word(docno));
        self.sum_of(docno).wrapping_add(last) >> 32
    }

    /// The sum of the length and the whole words.
    fn sum_of(&self, docno: &[u8]) -> u64
        requires { length docno.now ≤ 64 }
        ensures { result ≡ sum_of self.now docno.now (length docno.now / 4) }
    {
        let mut sum = self.length_factor.wrapping_mul(docno.len() as u64);
        for i in 0..docno.len() / 4 {
            sum = sum.wrapping_add(self.factors[i].wrapping_mul(word_at(docno, 4 * i)));
        }
        sum
    }
}

/// The four bytes from a place on as a number, the first the lowest.
fn word_at(bytes: &[u8], at: usize) -> u64
    requires { at + 4 ≤ length bytes.now }
    ensures { result ≡ word_at bytes.now at }
{
    u32::from_le_bytes([bytes[at], bytes[at + 1], bytes[at + 2], bytes[at + 3]]) as u64
}

/// The last four bytes as a number; of fewer the first, the middle and the last, which tell them
/// all.
fn last_word(bytes: &[u8]) -> u64
    ensures { result ≡ last_word bytes.now }
{
    let len = bytes.len();
    if len >= 4 {
        return word_at(bytes, len - 4);
    }
    if len == 0 {
        return 0;
    }
    u32::from_le_bytes([bytes[0], bytes[len / 2], bytes[len - 1], 0]) as u64
}
